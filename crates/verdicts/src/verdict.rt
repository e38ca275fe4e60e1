ghost use Rattle.verdicts.specs.Verdicts.{place_of, refusal_of, verdict_of};
ghost use Rattle.std.specs.Prelude.{◌≡◌};

use checking::CheckFault;
use keeping::{InstanceAt, TieAt};

// Where a refusal stands.
#[derive(Clone, Copy, PartialEq, Eq, Debug)]
pub enum Place {
    // it is about the whole text
    Whole,
    // a line and a column of the text, both from 1
    Text { line: u32, column: u32 },
    Instance(InstanceAt),
    Tie(TieAt),
}

// The number of a refusal, and its place.
#[derive(Clone, Copy, PartialEq, Eq, Debug)]
pub struct Refusal {
    pub number: u32,
    pub place: Place,
}

// What a check comes to.
#[derive(Clone, Copy, PartialEq, Eq, Debug)]
pub enum Verdict {
    Accepted,
    Refused(Refusal),
}

// Where a fault stands.
fn place_of(fault: &CheckFault) -> Place
    ensures { result ≡ place_of fault.now }
{
    match *fault {
        CheckFault::Read(fault) => Place::Text {
            line: fault.line,
            column: fault.column,
        },
        CheckFault::Rule(fault) => Place::Text {
            line: fault.line,
            column: fault.column,
        },
        CheckFault::Instance(at) => Place::Instance(at),
        CheckFault::Tie(at) => Place::Tie(at),
        CheckFault::Rows | CheckFault::OtherRule | CheckFault::Size | CheckFault::Memory(_) => {
            Place::Whole
        }
    }
}

impl Refusal {
    // The refusal of a fault; none where memory is wanting, which is no verdict on the text.
    pub fn of(fault: &CheckFault) -> Option<Refusal>
        ensures { result ≡ refusal_of fault.now }
    {
        let number = fault.number()?;
        Some(Refusal {
            number,
            place: place_of(fault),
        })
    }
}

impl Verdict {
    // The verdict of a check's answer; none where memory is wanting.
    pub fn of<T>(answer: &Result<T, CheckFault>) -> Option<Verdict>
        ensures { result ≡ verdict_of answer.now }
    {
        match answer {
            Ok(_) => Some(Verdict::Accepted),
            Err(fault) => Some(Verdict::Refused(Refusal::of(fault)?)),
        }
    }
}
