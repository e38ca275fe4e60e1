ghost use Rattle.reader.specs.Left.{left, first_of, filler, step_here, Passed, Read};
ghost use Rattle.rle.specs.Scans.{past, this_byte, in_turn};
ghost use Rattle.std.specs.Option.{ok_or};
ghost use Rattle.std.specs.Prelude.{◌≡◌, drop};

use crate::gap::Gap;
use crate::reader::Reader;
use rle::{ReadCause, Step};

impl<'a> Reader<'a> {
    // The byte that comes next.
    pub(crate) fn peek(&self) -> Option<u8>
        ensures { result ≡ first_of (left self.now) }
    {
        self.text.get(self.at).copied()
    }

    // The byte that has to come next.
    pub(crate) fn next_byte(&self) -> Result<u8, ReadCause>
        ensures { result ≡ ok_or (first_of (left self.now)) ReadCause.Ended }
    {
        self.peek().ok_or(ReadCause::Ended)
    }

    // Passes one byte, if there is one.
    pub(crate) fn advance(&mut self)
        ensures { Passed (drop 1) self.old self.new }
    {
        let Some(byte) = self.peek() else { return };
        self.at += 1;
        if byte == b'\n' {
            self.line += 1;
            self.column = 1;
        } else {
            self.column += 1;
        }
    }

    // Passes all that may be passed over, byte by byte, since each moves the line or the column.
    pub(crate) fn skip(&mut self, gap: Gap)
        ensures { Passed (past (filler gap)) self.old self.new }
    {
        while self.peek().is_some_and(|byte| gap.holds(byte)) {
            self.advance();
        }
    }

    // A byte that has to stand here.
    pub(crate) fn this_byte(&mut self, byte: u8) -> Result<(), ReadCause>
        ensures { Read (this_byte byte) self.old self.new result }
    {
        if self.next_byte()? != byte {
            return Err(ReadCause::Byte);
        }
        self.advance();
        Ok(())
    }

    // A byte that has to come, and the blanks after it where it is loose.
    fn step(&mut self, step: Step) -> Result<(), ReadCause>
        ensures { Read (step_here step) self.old self.new result }
    {
        match step {
            Step::Tight(byte) => self.this_byte(byte),
            Step::Loose(byte) => {
                self.this_byte(byte)?;
                self.skip(Gap::Blanks);
                Ok(())
            }
        }
    }

    // Bytes that have to come in turn.
    pub(crate) fn in_turn(&mut self, steps: &[Step]) -> Result<(), ReadCause>
        ensures { Read (in_turn steps.now) self.old self.new result }
    {
        for step in steps {
            self.step(*step)?;
        }
        Ok(())
    }
}
