ghost use Rattle.std.specs.Prelude.{◌+◌, ◌<◌};

// A part of a descriptor of which a code may say something: the summand that the code has where the
// part is forced off, and the one where it is forced on.
#[derive(Clone, Copy)]
pub struct Part {
    pub(crate) off: u8,
    pub(crate) on: u8,
    ghost fit: { off + on < 256 },
}

// The centre.
pub const CENTRE: Part = Part { off: 2, on: 4 };

// The centre's successor.
pub const SUCCESSOR: Part = Part { off: 8, on: 16 };

// The unknown neighbours.
pub const NEIGHBOURS: Part = Part { off: 32, on: 64 };
