ghost use Rattle.patterns.specs.Told.{Tells, runs_after, shown};
ghost use Rattle.reader.specs.Shown.{shown_item};
ghost use Rattle.std.specs.Prelude.{◌≡◌, IfOk, OnOk};

use crate::pattern::Pattern;
use reader::{Item, Reader};
use rle::{ReadFault, Run};
use std::alloc::{AllocError, Global};

// Puts an item that is a run behind those before it.
fn gather(runs: &mut Vec<Run>, item: Item<'_>) -> Result<(), AllocError>
    ensures { OnOk result (runs.new.items ≡ runs_after runs.old.items (shown_item item.entry)) }
{
    if let Item::Run(run) = item {
        runs.push(run)?;
    }
    Ok(())
}

impl<'a> Pattern<'a> {
    /// What a text tells, read to its end, or its first fault (18 to 22) and where that stands. It takes no memory.
    pub fn read(text: &'a [u8]) -> Result<Pattern<'a>, ReadFault>
        ensures { Tells text.now result }
    {
        let mut reader = Reader::new(text);
        let mut pattern = Pattern::blank(text);
        // each item but the end takes a byte, so that the end comes
        for _ in 0..text.len() + 1 {
            let located = reader.next_item()?;
            if let Item::End = located.item {
                return Ok(pattern);
            }
            pattern.take(located);
        }
        Ok(pattern)
    }

    /// The runs of the pattern, in sequence, read from its text once more. The one fault is want of memory for them.
    pub fn runs(&self, heap: Global) -> Result<Vec<Run>, AllocError>
        ensures { IfOk result (λ runs. runs.items ≡ (shown self.now).runs) }
    {
        let mut reader = Reader::new(self.text);
        let mut runs = Vec::new(heap);
        for _ in 0..self.text.len() + 1 {
            // the text was read before, so that it is not at fault; one that is has no runs
            let Ok(located) = reader.next_item() else {
                return Ok(Vec::new(heap));
            };
            if let Item::End = located.item {
                return Ok(runs);
            }
            gather(&mut runs, located.item)?;
        }
        Ok(runs)
    }
}
