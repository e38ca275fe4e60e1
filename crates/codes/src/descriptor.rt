ghost use Rattle.std.specs.Prelude.{◌+◌, ◌≤◌};

use crate::value::Value;

// What is known of a neighbourhood: its centre, how many neighbours are on and how many unknown,
// and the centre's successor in the next generation. By its type there are at most 8 of both. It
// has no model, since a `Copy` struct of a caller's that holds a struct with one is not copied.
#[derive(Clone, Copy)]
pub struct Descriptor {
    pub(crate) centre: Value,
    pub(crate) on: u32,
    pub(crate) unknown: u32,
    pub(crate) successor: Value,
    ghost few: { on + unknown ≤ 8 },
}
