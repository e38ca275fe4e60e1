ghost use Rattle.listing.specs.Faults.{list_number, list_words};
ghost use Rattle.listing.specs.declared.fault.ListFault.TheVariants as listing;
ghost use Rattle.std.specs.Prelude.{◌≡◌, Some};

use crate::sink::Closed;
use calls::CallFault;
use std::error::Error;
use std::fmt;
use texts::PageFault;

/// Why a page was not listed to its end.
#[derive(Clone, Copy, PartialEq, Eq, Debug)]
pub enum ListFault {
    /// the search refused a call
    Call(CallFault),
    /// the last line found no room
    Foot(PageFault),
    /// the sink takes no more
    Closed,
}

impl ListFault {
    /// The number that a user sees; none where memory is wanting or the sink takes no more.
    pub fn number(&self) -> Option<u32>
        ensures { result ≡ list_number self.now }
    {
        match self {
            ListFault::Call(fault) => fault.number(),
            ListFault::Foot(fault) => Some(fault.number()),
            ListFault::Closed => None,
        }
    }
}

// Each `From` is written out and not derived by thiserror, so that a clause knows which case `?` gives.
impl From<CallFault> for ListFault {
    ghost from_gives = { λ call fault. fault ≡ listing.Call call };

    fn from(call: CallFault) -> ListFault {
        Self::Call(call)
    }
}

impl From<PageFault> for ListFault {
    ghost from_gives = { λ page fault. fault ≡ listing.Foot page };

    fn from(page: PageFault) -> ListFault {
        Self::Foot(page)
    }
}

impl From<Closed> for ListFault {
    ghost from_gives = { λ _ fault. fault ≡ listing.Closed };

    fn from(_closed: Closed) -> ListFault {
        Self::Closed
    }
}

// What went wrong with the machine; the refusals of a search are a mistake of its caller.
impl fmt::Display for ListFault {
    ghost output = { λ fault. Some (list_words fault) };

    fn fmt<W: fmt::Write>(&self, f: &mut fmt::Formatter<W>) -> fmt::Result {
        match self {
            ListFault::Closed => write!(f, "the output is closed"),
            ListFault::Call(_) | ListFault::Foot(_) => write!(f, "the search was refused"),
        }
    }
}

impl Error for ListFault {}
