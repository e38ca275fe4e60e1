ghost use Rattle.std.specs.Prelude.{◌≡◌, ◌*◌, ◌-◌, ◌<◌};
ghost use Rattle.std.specs.Iterator.{at_most};
ghost use Rattle.frames.specs.Frames.{cells};
ghost use Rattle.classes.specs.Ties.{GivesTie};

use planes::{Plane, Space, Tie};

// The ties of a space that are still to come, row by row: of each its cell and what it asks.
#[derive(Drop)]
pub(crate) struct Ties<'a, S: Space> {
    pub(crate) space: &'a S,
    // how many cells a row has
    pub(crate) size: u32,
    // the number of the next tie, and of the one past the last
    pub(crate) next: u32,
    pub(crate) end: u32,
    ghost sized: { size ≡ cells (S.Plane.means space.now).frame },
    ghost some: { 0 < size },
    ghost ended: { end ≡ S.Space.count space.now * size },
}

impl<'a, S: Space> Ties<'a, S> {
    // All ties of a space.
    pub(crate) fn of(space: &'a S) -> Ties<'a, S>
        ensures space { result.space.now ≡ space.now }
        ensures first { result.next ≡ 0 }
    {
        let size = space.frame().cells();
        Ties {
            space,
            size,
            next: 0,
            end: space.rows() * size,
        }
    }
}

impl<'a, S: Space> Iterator for Ties<'a, S> {
    type Item = (u32, Tie);

    ghost remaining = { λ s. at_most (s.end - s.next) };

    ghost next_gives = { λ s r t. (t.space ≡ s.space) × (t.size ≡ s.size) × (t.end ≡ s.end) × GivesTie (S.Space.tied s.space.now) s.size s.next s.end t.next r };

    fn next(&mut self) -> Option<(u32, Tie)> {
        if self.next >= self.end {
            return None;
        }
        let cell = self.next % self.size;
        let tie = self.space.tie(self.next / self.size, cell);
        self.next += 1;
        Some((cell, tie))
    }
}
