use calls::{CallFault, Reply};
use search::Answer;
use std::alloc::AllocError;
use std::fmt;

// What a line of calls comes to, as a script has it.
#[derive(Clone, Copy)]
pub enum Said {
    Granted(Reply),
    // by its number
    Refused(u32),
    // the line names no call
    NoSuchCall,
}

impl Said {
    // Want of memory has no number, and is no answer.
    pub fn of(answer: Result<Reply, CallFault>) -> Result<Said, AllocError> {
        match answer {
            Ok(reply) => Ok(Said::Granted(reply)),
            Err(fault) => fault.number().map(Said::Refused).ok_or(AllocError),
        }
    }

    pub fn is_granted(&self) -> bool {
        matches!(self, Said::Granted(_))
    }
}

impl fmt::Display for Said {
    fn fmt<W: fmt::Write>(&self, f: &mut fmt::Formatter<W>) -> fmt::Result {
        match self {
            Said::Granted(Reply::Opened) => Ok(()),
            Said::Granted(Reply::Went(Answer::Found(steps))) => write!(f, "found {steps}"),
            Said::Granted(Reply::Went(Answer::Done(steps))) => write!(f, "done {steps}"),
            Said::Granted(Reply::Went(Answer::Paused(steps))) => write!(f, "paused {steps}"),
            Said::Granted(Reply::Read(on)) => write!(f, "value {}", u8::from(*on)),
            Said::Granted(Reply::Wrote(end)) => write!(f, "wrote {end}"),
            Said::Granted(Reply::Counted(finds)) => write!(f, "count {finds}"),
            Said::Refused(number) => write!(f, "refused {number}"),
            Said::NoSuchCall => write!(f, "no such call"),
        }
    }
}
