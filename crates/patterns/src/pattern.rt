ghost use Rattle.patterns.specs.Told.{blank, runs_after, shown_with, with_item};
ghost use Rattle.reader.specs.Shown.{shown_item};
ghost use Rattle.rle.specs.declared.mark.Run.{Run};
ghost use Rattle.std.specs.Prelude.{◌≡◌, List, []};

use reader::{Item, Located};

/// A text that tells a pattern, and what it tells: how many columns and rows the pattern has, and the rule that it
/// names. Its runs stay in the text until `runs` reads them again, so that reading a pattern takes no memory.
#[derive(Clone, Copy)]
pub struct Pattern<'a> {
    pub(crate) text: &'a [u8],
    pub width: u32,
    pub height: u32,
    /// without the blanks around it
    pub rule: Option<&'a [u8]>,
    /// the line, from 1, where the rule starts, or would start
    pub line: u32,
    /// the column, from 1, where it does
    pub column: u32,
}

impl<'a> Pattern<'a> {
    // Nothing is told of a text yet.
    pub(crate) fn blank(text: &'a [u8]) -> Pattern<'a>
        ensures text { result.text.now ≡ text.now }
        ensures nothing { shown_with result [] ≡ blank }
    {
        Pattern {
            text,
            width: 0,
            height: 0,
            rule: None,
            line: 1,
            column: 1,
        }
    }

    // Takes in what an item tells of the sizes and the rule.
    pub(crate) fn take(&mut self, located: Located<'a>)
        ensures text { self.new.text.now ≡ self.old.text.now }
        ensures more { (runs : List Run) → shown_with self.new (runs_after runs (shown_item located.entry.item)) ≡ with_item (shown_with self.old runs) located.entry.line (shown_item located.entry.item) }
    {
        if let Item::Heading(heading) = located.item {
            self.width = heading.width;
            self.height = heading.height;
            self.rule = heading.rule;
            self.line = located.line;
            self.column = heading.rule_column;
        }
    }
}
