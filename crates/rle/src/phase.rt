ghost use Rattle.rle.specs.Items.{laid, top_left};
ghost use Rattle.std.specs.Prelude.{◌≡◌};

use crate::fault::ReadCause;
use crate::mark::Mark;

// A byte that has to come next.
#[derive(Clone, Copy, PartialEq, Eq, Debug)]
pub enum Step {
    // no blank may follow it
    Tight(u8),
    // blanks may follow it
    Loose(u8),
}

// Where the next run is laid: a column and a row of a pattern of so many columns and rows. It has no
// invariant: its fields are public, and one would ask something of all who make a cursor.
#[derive(Clone, Copy, PartialEq, Eq, Debug)]
pub struct Cursor {
    pub width: u32,
    pub height: u32,
    pub column: u32,
    pub row: u32,
}

impl Cursor {
    // Where the first run of a pattern is laid.
    pub fn top_left(width: u32, height: u32) -> Cursor
        ensures { result ≡ top_left width height }
    {
        Cursor {
            width,
            height,
            column: 0,
            row: 0,
        }
    }

    // Where the next run is laid after so many marks; none where these leave the box. Cells lie in
    // the box, and a step down may come to the row below the last.
    pub fn after(self, count: u32, mark: Mark) -> Option<Cursor>
        ensures { result ≡ laid self count mark }
    {
        match mark {
            Mark::Off | Mark::On => {
                let column = self.column.checked_add(count)?;
                (self.row < self.height && column <= self.width).then_some(Cursor {
                    column,
                    ..self
                })
            }
            Mark::NextRow => {
                let row = self.row.checked_add(count)?;
                (row <= self.height).then_some(Cursor {
                    column: 0,
                    row,
                    ..self
                })
            }
        }
    }
}

// How far a reader has come.
#[derive(Clone, Copy, PartialEq, Eq, Debug)]
pub enum Phase {
    // remarks may come, and then the heading
    Opening,
    // the heading is read, and runs come
    Body(Cursor),
    // the text is at fault
    Failed(ReadCause),
}
