ghost use Rattle.std.specs.Prelude.{◌≡◌, ℕ, ◌+◌, ◌*◌, ◌/◌, ◌%◌, ◌<◌, ◌≤◌, pos, negsuc, ◌+ℤ◌, ◌≤ℤ◌, vec_len};
ghost use Rattle.rolls.specs.Rolls.{ninth};
ghost use Rattle.systems.specs.Spaces.{class_look, class_next, instance_at};
ghost use Rattle.gathering.specs.Bounds.{Names};
ghost use Rattle.gathering.specs.Rendering.{Beside, Classed, bare, kept};

use classes::Classes;
use frames::{Cell, Frame};
use planes::{NEIGHBOURS, Offset, Place, Plane};
use systems::Instance;

// How far out of the box instances reach.
const REACH: u32 = 9;

// A place in or around the box in one generation.
#[derive(Clone, Copy)]
pub(crate) struct Spot {
    x: i32,
    y: i32,
    t: u32,
    ghost left: { negsuc 8 ≤ℤ x },
    ghost right: { x ≤ℤ pos 40 },
    ghost up: { negsuc 8 ≤ℤ y },
    ghost down: { y ≤ℤ pos 40 },
}

// What instances are made from: the plane, its frame and its classes.
#[derive(Drop)]
pub(crate) struct Ground<'a, P: Plane> {
    pub(crate) plane: &'a P,
    pub(crate) frame: Frame,
    pub(crate) classes: &'a Classes,
    ghost framed: { frame ≡ (P.Plane.means plane.now).frame },
}

impl<'a, P: Plane> Ground<'a, P> {
    // The ground of a plane and its classes.
    pub(crate) fn of(plane: &'a P, classes: &'a Classes) -> Ground<'a, P>
        ensures plane { result.plane.now ≡ plane.now }
        ensures classes { result.classes.now ≡ classes.now }
    {
        Ground {
            plane,
            frame: plane.frame(),
            classes,
        }
    }

    // How many spots have an instance: those in the box and within reach of it.
    pub(crate) fn spots(&self) -> u32
        ensures value { result ≡ self.now.frame.period * (self.now.frame.height + 18) * (self.now.frame.width + 18) }
        ensures few { result ≤ 40000 }
    {
        let columns = self.frame.width() + 2 * REACH;
        let rows = self.frame.height() + 2 * REACH;
        self.frame.period() * rows * columns
    }

    // The spot of a number, by generation, row and column.
    pub(crate) fn spot(&self, number: u32) -> Spot
        requires { number < self.now.frame.period * (self.now.frame.height + 18) * (self.now.frame.width + 18) }
        ensures x { result.x ≡ ninth (number % (self.now.frame.width + 18)) }
        ensures y { result.y ≡ ninth (number / (self.now.frame.width + 18) % (self.now.frame.height + 18)) }
        ensures t { result.t ≡ number / (self.now.frame.width + 18) / (self.now.frame.height + 18) }
    {
        let columns = self.frame.width() + 2 * REACH;
        let rows = self.frame.height() + 2 * REACH;
        Spot {
            x: (number % columns) as i32 - REACH as i32,
            y: (number / columns % rows) as i32 - REACH as i32,
            t: number / columns / rows,
        }
    }

    // The class of the cell that is looked at; where there is none, the class past the last, which
    // stands for nothing: an Option in each neighbour would double an instance and add a test to
    // each look.
    fn class_at(&self, x: i32, y: i32, t: u32) -> u16
        ensures few { result ≤ vec_len self.now.classes.now.lowest }
        ensures value { Classed self.now.frame self.now.classes.now → t < self.now.frame.period → result ≡ class_look (bare (P.Plane.means self.now.plane.now)) (kept self.now.classes.now) t x y }
    {
        // shown to fit, so that nothing can fail here
        let nothing = self.classes.count() as u16;
        let Some(Place { x, y }) = self.plane.look(x, y) else {
            return nothing;
        };
        let Some(cell) = self.frame.number_of(Cell { x, y, t }) else {
            return nothing;
        };
        // no From takes a u32 to a usize
        self.classes.class_of(cell as usize).unwrap_or(nothing)
    }

    // The class of the successor: in the next generation, or after the last in the first, with the
    // drift taken away.
    fn successor_at(&self, spot: Spot) -> u16
        requires { spot.t < self.now.frame.period }
        ensures few { result ≤ vec_len self.now.classes.now.lowest }
        ensures value { Classed self.now.frame self.now.classes.now → result ≡ class_next (bare (P.Plane.means self.now.plane.now)) (kept self.now.classes.now) spot.t spot.x spot.y }
    {
        let Spot { x, y, t } = spot;
        if t + 1 < self.frame.period() {
            self.class_at(x, y, t + 1)
        } else {
            self.class_at(x - self.frame.dx(), y - self.frame.dy(), 0)
        }
    }

    // The class of the cell that is looked at beside a spot. So near the box nothing wraps.
    fn class_beside(&self, spot: Spot, by: Offset) -> u16
        ensures few { result ≤ vec_len self.now.classes.now.lowest }
        ensures value { Classed self.now.frame self.now.classes.now → spot.t < self.now.frame.period → Beside by → result ≡ class_look (bare (P.Plane.means self.now.plane.now)) (kept self.now.classes.now) spot.t (spot.x +ℤ by.dx) (spot.y +ℤ by.dy) }
    {
        self.class_at(
            spot.x.wrapping_add(by.dx),
            spot.y.wrapping_add(by.dy),
            spot.t,
        )
    }

    // The instance of a spot.
    pub(crate) fn instance_at(&self, spot: Spot) -> Instance
        requires { spot.t < self.now.frame.period }
        ensures named { Names (vec_len self.now.classes.now.lowest + 1) result }
        ensures value { Classed self.now.frame self.now.classes.now → result ≡ instance_at (bare (P.Plane.means self.now.plane.now)) (kept self.now.classes.now) spot.t spot.x spot.y }
    {
        Instance {
            centre: self.class_at(spot.x, spot.y, spot.t),
            successor: self.successor_at(spot),
            neighbours: NEIGHBOURS.map(|by| self.class_beside(spot, by)),
        }
    }
}
