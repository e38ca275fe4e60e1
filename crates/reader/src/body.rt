ghost use Rattle.reader.specs.Left.{mark_here, Read};
ghost use Rattle.reader.specs.Shown.{Took};
ghost use Rattle.rle.specs.Items.{counted, marked, body_item};
ghost use Rattle.rle.specs.Scans.{and_then};

use crate::item::{Item, Taken};
use crate::reader::Reader;
use rle::{Cursor, Mark, Phase, ReadCause, Run};

impl<'a> Reader<'a> {
    // How many marks a run has: 1 where no digit stands.
    fn count(&mut self) -> Result<u32, ReadCause>
        ensures { Read counted self.old self.new result }
    {
        match self.next_byte()? {
            b'0'..=b'9' => self.numeral(),
            _ => Ok(1),
        }
    }

    // The mark of a run.
    fn mark(&mut self) -> Result<Mark, ReadCause>
        ensures { Read mark_here self.old self.new result }
    {
        let mark = Mark::try_from(self.next_byte()?)?;
        self.advance();
        Ok(mark)
    }

    // A run; one that leaves the box is at fault where it starts.
    fn run(&mut self, cursor: Cursor) -> Result<Taken<'a>, ReadCause>
        ensures { Took (λ t. and_then (counted t) (marked cursor t)) self.old self.new result }
    {
        let start = *self;
        let count = self.count()?;
        let mark = self.mark()?;
        let Some(next) = cursor.after(count, mark) else {
            *self = start;
            return Err(ReadCause::Outside);
        };
        // no `From` widens a u32 to a usize
        let count = count as usize;
        Ok(Taken {
            item: Item::Run(Run { count, mark }),
            phase: Phase::Body(next),
        })
    }

    // A run or the end, which stays where it is.
    pub(crate) fn body_item(&mut self, cursor: Cursor) -> Result<Taken<'a>, ReadCause>
        ensures { Took (body_item cursor) self.old self.new result }
    {
        match self.next_byte()? {
            b'!' => Ok(Taken {
                item: Item::End,
                phase: Phase::Body(cursor),
            }),
            _ => self.run(cursor),
        }
    }
}
