ghost use Rattle.rle.specs.Faults.{number_of};
ghost use Rattle.std.specs.Prelude.{◌≡◌};

// Why a text is at fault.
#[derive(Clone, Copy, PartialEq, Eq, Debug)]
pub enum ReadCause {
    // over 65,536 bytes
    TooLong,
    // a byte that no text has there
    Byte,
    // a width or height over 32
    Size,
    // a run that leaves the box
    Outside,
    // the text ends before `!`
    Ended,
}

// A fault and where it stands: line and column, both from 1. These are flat, since they are public
// and callers read them.
#[derive(Clone, Copy, PartialEq, Eq, Debug)]
pub struct ReadFault {
    pub line: u32,
    pub column: u32,
    pub cause: ReadCause,
}

impl ReadCause {
    // The number that a user sees.
    pub fn number(&self) -> u32
        ensures { result ≡ number_of self.now }
    {
        match self {
            ReadCause::TooLong => 18,
            ReadCause::Byte => 19,
            ReadCause::Size => 20,
            ReadCause::Outside => 21,
            ReadCause::Ended => 22,
        }
    }
}
