ghost use Rattle.search.specs.Faults.{open_number, go_number, read_number, write_number, tally_number};
ghost use Rattle.search.specs.declared.fault.OpenFault.TheVariants.{Memory};
ghost use Rattle.search.specs.declared.fault.WriteFault.TheVariants.{Page};
ghost use Rattle.std.specs.Prelude.{◌≡◌};

use std::alloc::AllocError;
use std::error::Error;
use std::fmt;
use texts::PageFault;

// Why a search is not opened.
#[derive(Clone, Copy, PartialEq, Eq, Debug)]
pub enum OpenFault {
    // it is opened already
    NotBlank,
    // the space has more than 8 rows of ties
    TieRows,
    // there is not enough memory
    Memory,
}

impl OpenFault {
    // The number that a user sees; want of memory has none.
    pub fn number(&self) -> Option<u32>
        ensures { result ≡ open_number self.now }
    {
        match self {
            OpenFault::NotBlank => Some(10),
            OpenFault::TieRows => Some(11),
            OpenFault::Memory => None,
        }
    }
}

// Written out and not derived, as the next one too, so that a clause knows which case `?` gives.
impl From<AllocError> for OpenFault {
    ghost from_gives = { λ _ fault. fault ≡ Memory };

    fn from(_e: AllocError) -> OpenFault {
        Self::Memory
    }
}

// What a program says of it, for want of memory or else for a caller's mistake.
impl fmt::Display for OpenFault {
    fn fmt<W: fmt::Write>(&self, f: &mut fmt::Formatter<W>) -> fmt::Result {
        match self {
            OpenFault::NotBlank | OpenFault::TieRows => write!(f, "the search was not opened"),
            OpenFault::Memory => write!(f, "no memory"),
        }
    }
}

impl Error for OpenFault {}

// Why a search does not go.
#[derive(Clone, Copy, PartialEq, Eq, Debug)]
pub enum GoFault {
    // it is blank
    Blank,
    // the number of steps is not in 1..=1_000_000
    Steps,
}

impl GoFault {
    // The number that a user sees.
    pub fn number(&self) -> u32
        ensures { result ≡ go_number self.now }
    {
        match self {
            GoFault::Blank => 12,
            GoFault::Steps => 13,
        }
    }
}

// Why no cell of a find is read.
#[derive(Clone, Copy, PartialEq, Eq, Debug)]
pub enum CellFault {
    // the search is blank
    Blank,
    // the last go did not answer found
    NoFind,
    // the box has no such cell
    NoCell,
}

impl CellFault {
    // The number that a user sees.
    pub fn number(&self) -> u32
        ensures { result ≡ read_number self.now }
    {
        match self {
            CellFault::Blank => 12,
            CellFault::NoFind => 14,
            CellFault::NoCell => 7,
        }
    }
}

// Why no find is written.
#[derive(Clone, Copy, PartialEq, Eq, Debug)]
pub enum WriteFault {
    // the search is blank
    Blank,
    // the last go did not answer found
    NoFind,
    // the page has no room for the text
    Page(PageFault),
}

impl WriteFault {
    // The number that a user sees.
    pub fn number(&self) -> u32
        ensures { result ≡ write_number self.now }
    {
        match self {
            WriteFault::Blank => 12,
            WriteFault::NoFind => 14,
            WriteFault::Page(fault) => fault.number(),
        }
    }
}

impl From<PageFault> for WriteFault {
    ghost from_gives = { λ page fault. fault ≡ Page page };

    fn from(page: PageFault) -> WriteFault {
        WriteFault::Page(page)
    }
}

// Why there is no tally.
#[derive(Clone, Copy, PartialEq, Eq, Debug)]
pub enum TallyFault {
    // the search is blank
    Blank,
}

impl TallyFault {
    // The number that a user sees.
    pub fn number(&self) -> u32
        ensures { result ≡ tally_number self.now }
    {
        match self {
            TallyFault::Blank => 12,
        }
    }
}
