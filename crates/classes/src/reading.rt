ghost use Rattle.std.specs.Prelude.{◌≡◌, ℕ, ◌<◌, ◌≤◌, vec_len, MatchOption, slice_index, slice_index_or};
ghost use Rattle.classes.specs.Asked.{torn_among, unasked};

use crate::classes::{Classes, Musts};
use crate::musts::any_torn;

impl Classes {
    // How many cells there are.
    pub fn cells(&self) -> usize
        ensures count { result ≡ vec_len self.now.labels }
        ensures few { result ≤ 4096 }
    {
        self.labels.len()
    }

    // How many classes there are.
    pub fn count(&self) -> usize
        ensures count { result ≡ vec_len self.now.lowest }
        ensures few { result ≤ 4096 }
    {
        self.lowest.len()
    }

    // How many classes nothing is asked of.
    pub fn free(&self) -> u32
        ensures { result ≡ self.now.free }
    {
        self.free
    }

    // Whether a class is torn: asked to be off and on at once.
    pub fn torn(&self) -> bool
        ensures { result ≡ torn_among self.now.musts.items }
    {
        any_torn(self.musts.as_slice())
    }

    // The class of a cell; none where there is no such cell.
    pub fn class_of(&self, cell: usize) -> Option<u16>
        ensures { MatchOption result (vec_len self.now.labels ≤ cell) (λ class. (class ≡ slice_index self.now.labels.items cell) × (class < vec_len self.now.lowest)) }
    {
        self.labels.get(cell).copied()
    }

    // The lowest cell of a class; none where there is no such class.
    pub fn lowest(&self, class: usize) -> Option<u16>
        ensures { MatchOption result (vec_len self.now.lowest ≤ class) (λ cell. cell ≡ slice_index self.now.lowest.items class) }
    {
        self.lowest.get(class).copied()
    }

    // What is asked of a class; nothing where there is no such class.
    pub fn musts(&self, class: usize) -> Musts
        ensures { result ≡ slice_index_or self.now.musts.items class unasked }
    {
        self.musts.get(class).copied().unwrap_or_default()
    }
}
