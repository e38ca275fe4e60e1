use frames::Cell;
use orders::Rows;
use planes::Plain;
use rules::Rule;
use search::Answer;
use std::alloc::Global;

// What a search is opened on, and the memory that it takes then.
#[derive(Drop)]
pub struct Opening<'a, S, O> {
    pub heap: Global,
    pub space: &'a S,
    pub order: &'a O,
    pub rule: &'a Rule,
}

// A call of a search. Who opens none need not name a space and an order.
#[derive(Drop)]
pub enum Call<'a, S = Plain, O = Rows> {
    Open(Opening<'a, S, O>),
    // by at most so many steps
    Go(u32),
    Cell(Cell),
    // into the page from this place on
    Write(usize),
    Tally,
}

// What a granted call answers.
#[derive(Clone, Copy, PartialEq, Eq, Debug)]
pub enum Reply {
    Opened,
    Went(Answer),
    // whether the cell is on
    Read(bool),
    // the place after the text
    Wrote(usize),
    Counted(u64),
}
