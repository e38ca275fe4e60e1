ghost use Rattle.keeping.specs.Asked.{Near, answered, fails};
ghost use Rattle.frames.specs.Frames.{cells};
ghost use Rattle.keeping.specs.Worked.{next_of};
ghost use Rattle.rolls.specs.Rolls.{around, successor, surface, total, value};
ghost use Rattle.std.specs.Prelude.{◌≡◌, ◌<◌};

use crate::places::InstanceAt;
use frames::Cell;
use planes::{NEIGHBOURS, Place, Plane, Space};
use rules::Rule;

// A filling of the box of a space, seen through its looks, and a rule.
#[derive(Drop)]
pub(crate) struct Filled<'a, S: Space> {
    pub(crate) space: &'a S,
    pub(crate) rule: &'a Rule,
    pub(crate) cells: &'a [bool],
}

impl<S: Space> Filled<'_, S> {
    // What is seen from column x and row y in generation t; a look at nothing is off.
    fn seen(&self, t: u32, x: i32, y: i32) -> bool
        requires { t < (S.Plane.means self.now.space.now).frame.period }
        ensures { result ≡ value (surface (S.Plane.means self.now.space.now) (S.Space.count self.now.space.now) (S.Space.tied self.now.space.now)) self.now.cells.now t x y }
    {
        let Some(Place { x, y }) = self.space.look(x, y) else {
            return false;
        };
        let Some(number) = self.space.frame().number_of(Cell { x, y, t }) else {
            return false;
        };
        // no From takes a u32 to a usize
        self.cells.get(number as usize).copied().unwrap_or(false)
    }

    // How many of the looks around a place are on; each counts, even where two fall on one cell.
    fn total(&self, t: u32, x: i32, y: i32) -> u32
        requires before { t < (S.Plane.means self.now.space.now).frame.period }
        requires column { Near x }
        requires row { Near y }
        ensures { result ≡ total (surface (S.Plane.means self.now.space.now) (S.Space.count self.now.space.now) (S.Space.tied self.now.space.now)) self.now.cells.now t x y around }
    {
        let mut sum = 0;
        for by in &NEIGHBOURS {
            if self.seen(t, x + by.dx, y + by.dy) {
                sum += 1;
            }
        }
        sum
    }

    // What the rule answers to what is seen at a place.
    fn answered(&self, t: u32, x: i32, y: i32) -> bool
        requires before { t < (S.Plane.means self.now.space.now).frame.period }
        requires column { Near x }
        requires row { Near y }
        ensures { result ≡ answered (surface (S.Plane.means self.now.space.now) (S.Space.count self.now.space.now) (S.Space.tied self.now.space.now)) self.now.rule.now self.now.cells.now t x y }
    {
        self.rule.answer(self.seen(t, x, y), self.total(t, x, y))
    }

    // What is seen of a place one generation on, or after the last in the first, with the drift taken
    // away.
    fn successor(&self, t: u32, x: i32, y: i32) -> bool
        requires before { t < (S.Plane.means self.now.space.now).frame.period }
        requires column { Near x }
        requires row { Near y }
        ensures { result ≡ successor (surface (S.Plane.means self.now.space.now) (S.Space.count self.now.space.now) (S.Space.tied self.now.space.now)) self.now.cells.now t x y }
    {
        let frame = self.space.frame();
        if t + 1 < frame.period() {
            self.seen(t + 1, x, y)
        } else {
            self.seen(0, x - frame.dx(), y - frame.dy())
        }
    }

    // Whether an instance does not hold: its successor is not the rule's answer.
    pub(crate) fn fails(&self, at: InstanceAt) -> bool
        requires before { at.t < (S.Plane.means self.now.space.now).frame.period }
        requires column { Near at.x }
        requires row { Near at.y }
        ensures { result ≡ fails (surface (S.Plane.means self.now.space.now) (S.Space.count self.now.space.now) (S.Space.tied self.now.space.now)) self.now.rule.now self.now.cells.now at }
    {
        self.successor(at.t, at.x, at.y) != self.answered(at.t, at.x, at.y)
    }

    // What becomes of a cell one generation on.
    pub(crate) fn next_of(&self, number: u32) -> bool
        requires { number < cells (S.Plane.means self.now.space.now).frame }
        ensures { result ≡ next_of (surface (S.Plane.means self.now.space.now) (S.Space.count self.now.space.now) (S.Space.tied self.now.space.now)) self.now.rule.now self.now.cells.now number }
    {
        let Some(Cell { x, y, t }) = self.space.frame().cell_at(number) else {
            return false;
        };
        // both are shown to fit, so that nothing can fail here
        self.answered(t, x as i32, y as i32)
    }
}
