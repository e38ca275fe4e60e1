use rle::{Phase, Run};

// What a heading tells, and the part of the text that it is.
#[derive(Clone, Copy, PartialEq, Eq, Debug)]
pub struct Heading<'a> {
    // the line without its newline
    pub line: &'a [u8],
    pub width: u32,
    pub height: u32,
    // without the blanks around it
    pub rule: Option<&'a [u8]>,
    // where the rule starts, or would start
    pub rule_column: u32,
}

// What a heading tells after the height.
#[derive(Clone, Copy)]
pub(crate) struct Tail<'a> {
    pub rule: Option<&'a [u8]>,
    pub rule_column: u32,
}

// A part of a text; remarks and headings are lent from it.
#[derive(Clone, Copy, PartialEq, Eq, Debug)]
pub enum Item<'a> {
    // a line without its newline
    Remark(&'a [u8]),
    Heading(Heading<'a>),
    Run(Run),
    End,
}

// An item and where it starts: line and column, both from 1. They stand flat here as in `ReadFault`,
// since both are public and callers read the fields.
#[derive(Clone, Copy, PartialEq, Eq, Debug)]
pub struct Located<'a> {
    pub line: u32,
    pub column: u32,
    pub item: Item<'a>,
}

// An item, and how far the reader has come with it.
#[derive(Clone, Copy)]
pub(crate) struct Taken<'a> {
    pub item: Item<'a>,
    pub phase: Phase,
}
