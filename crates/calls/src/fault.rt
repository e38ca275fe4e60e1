ghost use Rattle.calls.specs.Faults.{number_of};
ghost use Rattle.calls.specs.declared.fault.CallFault.TheVariants as calling;
ghost use Rattle.std.specs.Prelude.{◌≡◌};

use search::{CellFault, GoFault, OpenFault, TallyFault, WriteFault};
use std::error::Error;
use std::fmt;

// Why a call is refused: the refusal of the search is carried whole.
#[derive(Clone, Copy, PartialEq, Eq, Debug)]
pub enum CallFault {
    Open(OpenFault),
    Go(GoFault),
    Cell(CellFault),
    Write(WriteFault),
    Tally(TallyFault),
}

impl CallFault {
    // The number that a user sees; none where memory is wanting.
    pub fn number(&self) -> Option<u32>
        ensures { result ≡ number_of self.now }
    {
        match self {
            CallFault::Open(fault) => fault.number(),
            CallFault::Go(fault) => Some(fault.number()),
            CallFault::Cell(fault) => Some(fault.number()),
            CallFault::Write(fault) => Some(fault.number()),
            CallFault::Tally(fault) => Some(fault.number()),
        }
    }
}

// Each `From` is written out and not derived, so that a clause knows which case `?` gives.
impl From<OpenFault> for CallFault {
    ghost from_gives = { λ cause fault. fault ≡ calling.Open cause };

    fn from(cause: OpenFault) -> CallFault {
        Self::Open(cause)
    }
}

impl From<GoFault> for CallFault {
    ghost from_gives = { λ cause fault. fault ≡ calling.Go cause };

    fn from(cause: GoFault) -> CallFault {
        Self::Go(cause)
    }
}

impl From<CellFault> for CallFault {
    ghost from_gives = { λ cause fault. fault ≡ calling.Cell cause };

    fn from(cause: CellFault) -> CallFault {
        Self::Cell(cause)
    }
}

impl From<WriteFault> for CallFault {
    ghost from_gives = { λ cause fault. fault ≡ calling.Write cause };

    fn from(cause: WriteFault) -> CallFault {
        Self::Write(cause)
    }
}

impl From<TallyFault> for CallFault {
    ghost from_gives = { λ cause fault. fault ≡ calling.Tally cause };

    fn from(cause: TallyFault) -> CallFault {
        Self::Tally(cause)
    }
}

// What a program says of it, for want of memory or else for a caller's mistake.
impl fmt::Display for CallFault {
    fn fmt<W: fmt::Write>(&self, f: &mut fmt::Formatter<W>) -> fmt::Result {
        match self {
            CallFault::Open(fault) => write!(f, "{fault}"),
            CallFault::Go(_) | CallFault::Cell(_) | CallFault::Write(_) | CallFault::Tally(_) => {
                write!(f, "the search refused a call")
            }
        }
    }
}

impl Error for CallFault {}
