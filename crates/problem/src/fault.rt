ghost use Rattle.problem.specs.Faults.{cause_number};
ghost use Rattle.problem.specs.declared.fault.Cause.TheVariants.{Frame, Rule, Fix};
ghost use Rattle.std.specs.Prelude.{◌≡◌};

use frames::FrameFault;
use planes::FixFault;
use rules::RuleFault;

// Why a line of a problem is refused. What a lower layer refuses is carried whole.
#[derive(Clone, Copy, PartialEq, Eq, Debug)]
pub enum Cause {
    // over 65,536 bytes
    TooLong,
    // the line is missing or not of its form
    Form,
    Frame(FrameFault),
    Rule(RuleFault),
    Fix(FixFault),
}

// A refusal and the line that it stands at, from 1.
#[derive(Clone, Copy, PartialEq, Eq, Debug)]
pub struct ProblemFault {
    pub line: u32,
    pub cause: Cause,
}

// Each `From` is written out and not derived, so that a clause knows which case `?` gives.
impl From<FrameFault> for Cause {
    ghost from_gives = { λ fault cause. cause ≡ Frame fault };

    fn from(fault: FrameFault) -> Cause {
        Cause::Frame(fault)
    }
}

impl From<RuleFault> for Cause {
    ghost from_gives = { λ fault cause. cause ≡ Rule fault };

    fn from(fault: RuleFault) -> Cause {
        Cause::Rule(fault)
    }
}

impl From<FixFault> for Cause {
    ghost from_gives = { λ fault cause. cause ≡ Fix fault };

    fn from(fault: FixFault) -> Cause {
        Cause::Fix(fault)
    }
}

impl Cause {
    // The number that a user sees.
    pub fn number(&self) -> u32
        ensures { result ≡ cause_number self.now }
    {
        match self {
            Cause::TooLong => 18,
            Cause::Form => 27,
            Cause::Frame(fault) => fault.number(),
            Cause::Rule(fault) => fault.number(),
            Cause::Fix(fault) => fault.number(),
        }
    }
}
