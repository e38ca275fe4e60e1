ghost use Rattle.std.specs.Prelude.{◌≡◌, ◌≤◌, false, length};
ghost use Rattle.std.specs.Iterator.{at_most};
ghost use Rattle.rle.specs.Marks.{pattern_marks};
ghost use Rattle.texts.specs.Marks.{lead, left, Gives};

use crate::mark::Runs;
use frames::Frame;
use rle::{Mark, Run};

// How many cells at the front are as `value` says.
fn leading(cells: &[bool], value: bool) -> usize
    ensures lead { result ≡ lead value cells.now }
    ensures within { result ≤ length cells.now }
{
    cells
        .iter()
        .position(|cell| *cell != value)
        .unwrap_or(cells.len())
}

impl<'a> Runs<'a> {
    // The runs of a pattern of the frame's columns and rows; what lies beyond these is not looked at.
    pub fn new(frame: &Frame, pattern: &'a [bool]) -> Runs<'a>
        ensures { left result ≡ pattern_marks frame.now.width frame.now.height pattern.now }
    {
        // `as`: no `From` takes a `u32` to a `usize`, which may be narrower on other machines
        let width = frame.width() as usize;
        let cells = &pattern[..pattern.len().min(width * frame.height() as usize)];
        let (line, below) = cells.split_at(width.min(cells.len()));
        Runs { width, line, below }
    }

    // The steps down to the next row with an on cell, where this row has none left.
    fn next_row(&mut self) -> Option<Run>
        requires { lead false self.old.line.now ≡ length self.old.line.now }
        ensures { Gives (left self.old) (left self.new) result }
    {
        let gap = leading(self.below, false);
        if gap == self.below.len() {
            return None;
        }
        let skipped = gap / self.width;
        let rows = &self.below[skipped * self.width..];
        let (line, below) = rows.split_at(self.width.min(rows.len()));
        self.line = line;
        self.below = below;
        Some(Run {
            count: skipped + 1,
            mark: Mark::NextRow,
        })
    }
}

impl<'a> Iterator for Runs<'a> {
    type Item = Run;

    ghost next_gives = { λ old run new. Gives (left old) (left new) run };

    ghost remaining = { λ runs. at_most (length (left runs)) };

    // The next run, if any cell from here on is on.
    fn next(&mut self) -> Option<Run> {
        let off = leading(self.line, false);
        if off == self.line.len() {
            return self.next_row();
        }
        if off > 0 {
            self.line = &self.line[off..];
            return Some(Run {
                count: off,
                mark: Mark::Off,
            });
        }
        let on = leading(self.line, true);
        self.line = &self.line[on..];
        Some(Run {
            count: on,
            mark: Mark::On,
        })
    }
}
