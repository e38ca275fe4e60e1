ghost use Rattle.running.specs.declared.fault.RunFault.TheVariants as run;
ghost use Rattle.std.specs.Prelude.{◌≡◌};

use calls::CallFault;
use listing::ListFault;
use std::alloc::AllocError;
use std::error::Error;
use std::{fmt, io};

/// Why a run ended before all was written.
#[derive(Debug, Drop)]
pub enum RunFault {
    /// The input could not be read to its end, or there was no memory to hold it.
    Read(io::Error),
    /// The output took no more of a line.
    Write(io::Error),
    /// The space could not be listed to its end.
    List(ListFault),
    /// There was no memory to check a text.
    Memory(AllocError),
}

// Each `From` is written out and not derived, so that a clause knows which case `?` gives.
impl From<ListFault> for RunFault {
    ghost from_gives = { λ cause fault. fault ≡ run.List cause };

    fn from(cause: ListFault) -> RunFault {
        Self::List(cause)
    }
}

impl From<AllocError> for RunFault {
    ghost from_gives = { λ cause fault. fault ≡ run.Memory cause };

    fn from(cause: AllocError) -> RunFault {
        Self::Memory(cause)
    }
}

// What went wrong with the machine, in the words of what it is about.
impl fmt::Display for RunFault {
    fn fmt<W: fmt::Write>(&self, f: &mut fmt::Formatter<W>) -> fmt::Result {
        match self {
            RunFault::Read(fault) | RunFault::Write(fault) => write!(f, "{fault}"),
            // the list tells of any call that it was refused; an opening says whether memory was wanting
            RunFault::List(ListFault::Call(CallFault::Open(fault))) => write!(f, "{fault}"),
            RunFault::List(fault) => write!(f, "{fault}"),
            RunFault::Memory(_) => write!(f, "no memory for the check"),
        }
    }
}

impl Error for RunFault {}
