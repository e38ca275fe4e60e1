ghost use Rattle.lines.specs.Lines.{blank, first_line};
ghost use Rattle.reader.specs.Left.{left, size_after, whole_line, Read, Scanned};
ghost use Rattle.reader.specs.Shown.{Headed, Tailed};
ghost use Rattle.rle.specs.Items.{heading, tailed, ruled, unruled, before_rule};
ghost use Rattle.rle.specs.Scans.{and_then, in_turn, past};
ghost use Rattle.std.specs.Prelude.{◌≡◌};

use crate::gap::Gap;
use crate::item::{Heading, Tail};
use crate::reader::Reader;
use crate::steps::{BEFORE_HEIGHT, BEFORE_RULE, BEFORE_WIDTH};
use lines::{line_end, trimmed_len};
use rle::{ReadCause, Step};

impl<'a> Reader<'a> {
    // The line from here on, without its newline.
    fn line_here(&self) -> &'a [u8]
        ensures { result.now ≡ first_line (left self.now) }
    {
        &self.text[self.at..line_end(self.text, self.at)]
    }

    // Passes a line that a newline ends, and hands it out without.
    pub(crate) fn line(&mut self) -> Result<&'a [u8], ReadCause>
        ensures { Scanned (λ s. s.now) whole_line self.old self.new result }
    {
        let line = self.line_here();
        self.at += line.len();
        // a line is shown to be no longer than a text, so nothing is lost and nothing can fail here
        self.column += line.len() as u32;
        self.this_byte(b'\n')?;
        Ok(line)
    }

    // The rule that a heading names.
    fn ruled(&mut self) -> Result<Tail<'a>, ReadCause>
        ensures { Tailed (λ w h t. and_then (in_turn before_rule t) (λ _ rest. ruled w h rest)) self.old self.new result }
    {
        self.in_turn(&BEFORE_RULE)?;
        let rule_column = self.column;
        let rest = self.line()?;
        let len = trimmed_len(rest);
        Ok(Tail {
            rule: Some(&rest[..len]),
            rule_column,
        })
    }

    // No rule is named, and the line ends.
    fn unruled(&mut self) -> Result<Tail<'a>, ReadCause>
        ensures { Tailed (λ w h t. unruled w h (past blank t)) self.old self.new result }
    {
        self.skip(Gap::Blanks);
        let rule_column = self.column;
        self.this_byte(b'\n')?;
        Ok(Tail {
            rule: None,
            rule_column,
        })
    }

    // What follows the height.
    fn tailed(&mut self) -> Result<Tail<'a>, ReadCause>
        ensures { Tailed tailed self.old self.new result }
    {
        match self.next_byte()? {
            b',' => self.ruled(),
            _ => self.unruled(),
        }
    }

    // A size after some bytes.
    fn size_after(&mut self, steps: &[Step]) -> Result<u32, ReadCause>
        ensures { Read (size_after steps.now) self.old self.new result }
    {
        self.in_turn(steps)?;
        self.size()
    }

    // A heading, with its newline.
    #[tactic(auto, unfolding(rle::specs::Items::heading))]
    pub(crate) fn heading(&mut self) -> Result<Heading<'a>, ReadCause>
        ensures { Headed heading (first_line (left self.old)) self.old self.new result }
    {
        let line = self.line_here();
        let width = self.size_after(&BEFORE_WIDTH)?;
        let height = self.size_after(&BEFORE_HEIGHT)?;
        let Tail { rule, rule_column } = self.tailed()?;
        Ok(Heading {
            line,
            width,
            height,
            rule,
            rule_column,
        })
    }
}
