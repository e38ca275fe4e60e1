ghost use Rattle.std.specs.Prelude.{◌≡◌};
ghost use Rattle.rules.specs.Forms.{written};
ghost use Rattle.rle.specs.Back.{ReadsAs};
ghost use Rattle.search.specs.Calls.{WriteText};
ghost use Rattle.search.specs.Opening.{found_cells, found_text};

use crate::fault::WriteFault;
use crate::record::Record;
use texts::write_pattern;

impl Record {
    // Writes the text of the first generation into the page from place `at`.
    #[tactic(auto, using(rle::proofs::Written::round_trip))]
    pub(crate) fn write(&self, page: &mut [u8], at: usize) -> Result<usize, WriteFault>
        ensures text { WriteText (found_text self.now) page.old at page.new result }
        ensures back { ReadsAs self.now.frame.width self.now.frame.height (written self.now.rule.births self.now.rule.survivals) (found_cells self.now) (found_text self.now) }
    {
        // no `array::from_fn`: it asks of all 1,024 cells and not only of the box's, which takes a
        // fifth longer where many finds are told
        let mut pattern = [false; 1024];
        // no From takes a u32 to a usize
        for cell in 0..self.frame.places() as usize {
            pattern[cell] = self.is_on(cell);
        }
        Ok(write_pattern(page, at, &self.frame, &self.rule, &pattern)?)
    }
}
