ghost use Rattle.std.specs.Prelude.{◌≡◌, vec_len};

use crate::report::Verdict;
use calls::{CallFault, Reply};
use std::alloc::{AllocError, Global};
use std::error::Error;
use std::fmt;

/// Room for what calls and texts are answered, taken before any of them is made.
#[derive(Drop)]
pub struct Room {
    pub(crate) answers: Vec<Result<Reply, CallFault>>,
    pub(crate) verdicts: Vec<Verdict>,
    ghost unanswered: { vec_len answers ≡ 0 },
    ghost unjudged: { vec_len verdicts ≡ 0 },
}

impl Room {
    ghost use Rattle.std.specs.Prelude.{IfOk, IsTrue, ◌↔◌};
    ghost use Rattle.accounting.specs.Rooms.{Holds};

    /// Room for the answers to so many calls and the verdicts on so many texts.
    pub fn new(heap: Global, calls: usize, texts: usize) -> Result<Room, AllocError>
        ensures { IfOk result (λ room. Holds room calls texts) }
    {
        Ok(Room {
            answers: Vec::with_capacity(heap, calls)?,
            verdicts: Vec::with_capacity(heap, texts)?,
        })
    }

    /// Whether there is room for so many of both.
    pub fn holds(&self, calls: usize, texts: usize) -> bool
        ensures { IsTrue result ↔ Holds self.now calls texts }
    {
        calls <= self.answers.capacity() && texts <= self.verdicts.capacity()
    }
}

/// The room that was brought is too small for the answers that were asked for.
#[derive(Clone, Copy, PartialEq, Eq, Debug)]
pub struct NoRoom;

impl fmt::Display for NoRoom {
    fn fmt<W: fmt::Write>(&self, f: &mut fmt::Formatter<W>) -> fmt::Result {
        write!(f, "there is no room for the answers")
    }
}

impl Error for NoRoom {}
