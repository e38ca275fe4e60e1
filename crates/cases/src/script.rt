use crate::opening::{ProblemCall, opening_of};
use calls::Call;
use frames::Cell;
use lines::Lines;
use numbers::read_decimal;
use problem::{Problem, read_problem};
use std::alloc::{AllocError, Global};
use words::Words;

// A script has at most so many lines of calls, those that name a search among them.
const MOST_CALLS: usize = 65_535;

// Which of its two searches a script calls.
#[derive(Clone, Copy)]
pub enum Called {
    Opened,
    Blank,
}

impl Called {
    pub fn pick<'x, T>(self, opened: &'x mut T, blank: &'x mut T) -> &'x mut T {
        match self {
            Called::Opened => opened,
            Called::Blank => blank,
        }
    }
}

// What a line of calls says.
#[derive(Drop)]
pub enum Line<'a> {
    // which search is called from here on
    Names(Called),
    Asks(ProblemCall<'a>),
    // it names no call
    Other,
}

// What a script says: the problem that one of its searches is opened on, the size of the page, and the
// lines of the calls.
#[derive(Drop)]
pub struct Script<'a> {
    pub problem: Problem,
    size: usize,
    calls: Lines<'a>,
}

// The number that follows the name of a call.
fn number_after(line: &[u8], name: &[u8]) -> Option<u64> {
    read_decimal(line.strip_prefix(name)?)
}

// The cell that is to be read.
fn cell_in(line: &[u8]) -> Option<Cell> {
    // a space follows the name, as with the other calls; words may have other blanks before them
    if !line.starts_with(b"cell ") {
        return None;
    }
    let mut words = Words::after(line, b"cell")?;
    let cell = Cell {
        x: words.number()?,
        y: words.number()?,
        t: words.number()?,
    };
    words.is_done().then_some(cell)
}

impl<'a> Script<'a> {
    // The parts of a script; none where no line tells the size of the page, or the problem is refused.
    pub fn read(text: &'a [u8]) -> Option<Script<'a>> {
        // it ends the problem, and is a part of it
        let newline = text
            .windows(6)
            .position(|part| part == b"\npage ".as_slice())?;
        let (problem, rest) = text.split_at(newline + 1);
        let mut calls = Lines::new(rest);
        let size = number_after(calls.next_line()?, b"page ")?;
        Some(Script {
            problem: read_problem(problem).ok()?,
            // no From takes a u64 to a usize, which are alike here
            size: size as usize,
            calls,
        })
    }

    // The page before the first call.
    pub fn page(&self, heap: Global) -> Result<Vec<u8>, AllocError> {
        vec![in heap; b'.'; self.size]
    }

    // The lines of its calls; none where there are too many.
    pub fn calls(&self) -> Option<Lines<'a>> {
        let mut calls = self.calls;
        calls.nth(MOST_CALLS).is_none().then_some(self.calls)
    }

    // The call that a line names.
    fn call_in(&self, heap: Global, line: &[u8]) -> Option<ProblemCall<'_>> {
        if let Some(steps) = number_after(line, b"go ") {
            return Some(Call::Go(u32::try_from(steps).unwrap_or(u32::MAX)));
        }
        if let Some(at) = number_after(line, b"write ") {
            return Some(Call::Write(usize::try_from(at).unwrap_or(usize::MAX)));
        }
        match line {
            b"open" => Some(Call::Open(opening_of(heap, &self.problem))),
            b"tally" => Some(Call::Tally),
            _ => Some(Call::Cell(cell_in(line)?)),
        }
    }

    // What a line of its calls says.
    pub fn line(&self, heap: Global, line: &[u8]) -> Line<'_> {
        match line {
            b"opened" => Line::Names(Called::Opened),
            b"blank" => Line::Names(Called::Blank),
            _ => self.call_in(heap, line).map_or(Line::Other, Line::Asks),
        }
    }
}
