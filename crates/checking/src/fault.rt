ghost use Rattle.checking.specs.Faults.{number_of};
ghost use Rattle.checking.specs.declared.fault.CheckFault.TheVariants.{Memory, Read};
ghost use Rattle.std.specs.Prelude.{◌≡◌};

use keeping::{InstanceAt, TieAt};
use rle::ReadFault;
use rules::RuleFault;
use std::alloc::AllocError;

// Why a text's rule is none, and where it starts, or would start: line and column, both from 1.
#[derive(Clone, Copy, PartialEq, Eq, Debug)]
pub struct RuleAt {
    pub line: u32,
    pub column: u32,
    pub cause: RuleFault,
}

// Why a text is not accepted. What a lower layer refuses is carried whole.
#[derive(Clone, Copy, PartialEq, Eq, Debug)]
pub enum CheckFault {
    // the space has more than 8 rows of ties
    Rows,
    // the text is at fault
    Read(ReadFault),
    // its rule is none
    Rule(RuleAt),
    // it has another rule
    OtherRule,
    // it has more columns or rows than the box
    Size,
    // an instance does not hold: the first
    Instance(InstanceAt),
    // a tie does not hold: the first
    Tie(TieAt),
    // there is no memory
    Memory(AllocError),
}

// Each `From` is written out and not derived, so that a clause knows which case `?` gives.
impl From<ReadFault> for CheckFault {
    ghost from_gives = { λ fault answer. answer ≡ Read fault };

    fn from(fault: ReadFault) -> CheckFault {
        CheckFault::Read(fault)
    }
}

impl From<AllocError> for CheckFault {
    ghost from_gives = { λ fault answer. answer ≡ Memory fault };

    fn from(fault: AllocError) -> CheckFault {
        CheckFault::Memory(fault)
    }
}

impl CheckFault {
    // The number that a user sees; none where memory is wanting.
    pub fn number(&self) -> Option<u32>
        ensures { result ≡ number_of self.now }
    {
        match self {
            CheckFault::Rows => Some(11),
            CheckFault::Read(fault) => Some(fault.cause.number()),
            CheckFault::Rule(fault) => Some(fault.cause.number()),
            CheckFault::OtherRule => Some(23),
            CheckFault::Size => Some(24),
            CheckFault::Instance(_) => Some(25),
            CheckFault::Tie(_) => Some(26),
            CheckFault::Memory(_) => None,
        }
    }
}
