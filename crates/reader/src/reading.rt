ghost use Rattle.std.specs.Prelude.{◌≡◌, ◌≤◌, length};
ghost use Rattle.reader.specs.Calls.{item_here, standing, Begun, Opened, Answered};
ghost use Rattle.reader.specs.Left.{Passed};
ghost use Rattle.reader.specs.Shown.{Took};
ghost use Rattle.rle.specs.Items.{item_start, remark_item, heading_item, opening_item};

use crate::gap::Gap;
use crate::item::{Item, Located, Taken};
use crate::reader::Reader;
use lines::MOST_BYTES;
use rle::{Cursor, Phase, ReadCause, ReadFault};

impl<'a> Reader<'a> {
    // A reader at the start of a text. One of more than 65,536 bytes is refused at its first byte.
    pub fn open(text: &'a [u8]) -> Result<Reader<'a>, ReadFault>
        ensures { Begun text.now result }
    {
        if text.len() > MOST_BYTES {
            return Err(ReadFault {
                line: 1,
                column: 1,
                cause: ReadCause::TooLong,
            });
        }
        Ok(Reader::at_start(text, Phase::Opening))
    }

    // The same for a caller that meets each refusal at its first item: a text that is refused gives a
    // reader of nothing, at that fault.
    pub fn new(text: &'a [u8]) -> Reader<'a>
        ensures { Opened text.now result }
    {
        // a match: the prover does not cover `unwrap_or_else` of a type with a lifetime
        match Reader::open(text) {
            Ok(reader) => reader,
            Err(fault) => Reader::at_start(&[], Phase::Failed(fault.cause)),
        }
    }

    #[tactic(auto, unfolding(rle::specs::Spots::spot_past))]
    fn at_start(text: &'a [u8], phase: Phase) -> Reader<'a>
        requires { length text.now ≤ 65536 }
        ensures text { result.text.now ≡ text.now }
        ensures stands { standing result ≡ record { rest = text.now; phase = phase } }
    {
        Reader {
            text,
            at: 0,
            line: 1,
            column: 1,
            phase,
        }
    }

    // The next item and where it starts, or the fault that the reader has come to. After the end and
    // after a fault it answers the same again.
    pub fn next_item(&mut self) -> Result<Located<'a>, ReadFault>
        ensures { Answered self.old self.new result }
    {
        let phase = self.phase;
        self.seek_item(phase);
        let Reader { line, column, .. } = *self;
        match self.item_here(phase) {
            Ok(taken) => {
                self.phase = taken.phase;
                Ok(Located {
                    line,
                    column,
                    item: taken.item,
                })
            }
            Err(cause) => {
                self.phase = Phase::Failed(cause);
                Err(ReadFault {
                    line: self.line,
                    column: self.column,
                    cause,
                })
            }
        }
    }

    // Goes to where the next item starts: what parts runs is passed over.
    fn seek_item(&mut self, phase: Phase)
        ensures { Passed (item_start phase) self.old self.new }
    {
        if let Phase::Body(_) = phase {
            self.skip(Gap::Space);
        }
    }

    // The item that starts here.
    fn item_here(&mut self, phase: Phase) -> Result<Taken<'a>, ReadCause>
        ensures { Took (item_here phase) self.old self.new result }
    {
        match phase {
            Phase::Opening => self.opening_item(),
            Phase::Body(cursor) => self.body_item(cursor),
            Phase::Failed(cause) => Err(cause),
        }
    }

    // A remark or the heading.
    fn opening_item(&mut self) -> Result<Taken<'a>, ReadCause>
        ensures { Took opening_item self.old self.new result }
    {
        match self.next_byte()? {
            b'#' => self.remark_item(),
            _ => self.heading_item(),
        }
    }

    fn remark_item(&mut self) -> Result<Taken<'a>, ReadCause>
        ensures { Took remark_item self.old self.new result }
    {
        let line = self.line()?;
        Ok(Taken {
            item: Item::Remark(line),
            phase: Phase::Opening,
        })
    }

    // The heading, after which the first run is laid from the top left on.
    fn heading_item(&mut self) -> Result<Taken<'a>, ReadCause>
        ensures { Took heading_item self.old self.new result }
    {
        let heading = self.heading()?;
        Ok(Taken {
            item: Item::Heading(heading),
            phase: Phase::Body(Cursor::top_left(heading.width, heading.height)),
        })
    }
}
