ghost use Rattle.std.specs.Prelude.{◌≡◌, ◌+◌, ◌<◌, ◌≤◌, length, take, drop, OnSome};
ghost use Rattle.lines.specs.Lines.{blank, line_length, trimmed};
ghost use Rattle.lines.specs.Ends.{LineEnd, Trimmed, NextLine};
ghost use Rattle.lines.specs.Given.{GivenLine, HandsOut};
ghost use Rattle.std.specs.Iterator.{at_most};

// How many bytes a text or a problem has at most.
pub const MOST_BYTES: usize = 65_536;

// Whether a byte is a blank: a space, a tab or a carriage return.
pub fn is_blank(byte: u8) -> bool
    ensures { result ≡ blank byte }
{
    matches!(byte, b' ' | b'\t' | b'\r')
}

// How many bytes stand before the first newline, or before the end where there is none.
fn line_len(text: &[u8]) -> usize
    ensures value { result ≡ line_length text.now }
    ensures ends { LineEnd text.now 0 result }
{
    text.iter()
        .position(|byte| *byte == b'\n')
        .unwrap_or(text.len())
}

// Where the line that `at` lies in ends: at the next newline, or where the text does.
pub fn line_end(text: &[u8], at: usize) -> usize
    ensures value { result ≡ at + line_length (drop at text.now) }
    ensures within { at ≤ length text.now → result ≤ length text.now }
    ensures ends { LineEnd text.now at result }
{
    text.get(at..).map_or(at, |rest| at + line_len(rest))
}

// How much of a line is left without the blanks at its end.
pub fn trimmed_len(line: &[u8]) -> usize
    ensures value { take result line.now ≡ trimmed line.now }
    ensures within { result ≤ length line.now }
    ensures kept { Trimmed line.now result }
{
    line.iter()
        .rposition(|byte| !is_blank(*byte))
        .map_or(0, |last| last + 1)
}

// What follows the byte at `end`, which parts it from what comes before.
pub fn after(text: &[u8], end: usize) -> &[u8]
    ensures { result.now ≡ drop (end + 1) text.now }
{
    match text.get(end..) {
        Some([_, rest @ ..]) => rest,
        _ => &[],
    }
}

// Goes through a text and hands out its lines, each without its newline and the blanks at its end.
#[derive(Clone, Copy)]
pub struct Lines<'a> {
    pub(crate) rest: &'a [u8],
}

impl<'a> Lines<'a> {
    pub fn new(text: &'a [u8]) -> Lines<'a>
        ensures { result.rest.now ≡ text.now }
    {
        Lines { rest: text }
    }

    // The next line; a last newline opens none.
    pub fn next_line(&mut self) -> Option<&'a [u8]>
        ensures line { NextLine self.old.rest.now self.new.rest.now result }
        ensures given { GivenLine self.old.rest.now self.new.rest.now result }
        ensures less { OnSome result (length self.new.rest.now < length self.old.rest.now) }
        ensures rest { length self.new.rest.now ≤ length self.old.rest.now }
    {
        if self.rest.is_empty() {
            return None;
        }
        let end = line_len(self.rest);
        let line = &self.rest[..end];
        self.rest = after(self.rest, end);
        Some(&line[..trimmed_len(line)])
    }
}

impl<'a> Iterator for Lines<'a> {
    type Item = &'a [u8];

    ghost next_gives = { λ old line new. HandsOut old.rest.now new.rest.now line };

    ghost remaining = { λ lines. at_most (length lines.rest.now) };

    fn next(&mut self) -> Option<&'a [u8]> {
        self.next_line()
    }
}
