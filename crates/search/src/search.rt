ghost use Rattle.std.specs.Prelude.{◌≡◌, ◌<◌, ◌≤◌, ℕ, false, None, Some, IfOk, MatchResult};
ghost use Rattle.rules.specs.Forms.{written};
ghost use Rattle.rules.specs.declared.rule.Rule.{Rule};
ghost use Rattle.rolls.specs.Rolls.{Surface, surface};
ghost use Rattle.rle.specs.Back.{ReadsAs};
ghost use Rattle.rle.specs.Texts.{pattern_text};
ghost use Rattle.systems.specs.Spaces.{spread, system_of};
ghost use Rattle.histories.specs.Searches.{fresh};
ghost use Rattle.search.specs.Answers.{steps_of};
ghost use Rattle.search.specs.Calls.{Goes, IsOpen, OpenRefused, Writes, cell_answer, cell_found, find_of, found_by, go_refusal, left_in, open_refusal, state_in, tally_answer, text_of, told_by};
ghost use Rattle.search.specs.Moves.{found_after, is_done, tally_after};

use crate::answer::Answer;
use crate::fault::{CellFault, GoFault, OpenFault, TallyFault, WriteFault};
use crate::record::Record;
use frames::Cell;
use orders::Order;
use planes::{Plane, Space};
use rules::Rule;
use std::alloc::Global;

// A search: blank, or opened on a space, an order and a rule.
#[derive(Drop)]
pub struct Search {
    record: Option<Record>,
}

impl Search {
    // A blank search.
    pub fn blank() -> Search
        ensures { result.record ≡ None }
    {
        Search { record: None }
    }

    // Opens a blank search on a space of at most 8 rows of ties, an order and a rule. All memory
    // that the search will want is taken here.
    pub fn open<S: Space, O: Order>(
        &mut self,
        heap: Global,
        space: &S,
        order: &O,
        rule: &Rule,
    ) -> Result<(), OpenFault>
        ensures refused { MatchResult result
            (λ _. open_refusal self.old.record (S.Space.count space.now) ≡ None)
            (λ fault. OpenRefused (open_refusal self.old.record (S.Space.count space.now)) fault × (self.new ≡ self.old)) }
        ensures opened { IfOk result (λ _. IsOpen self.new
            (surface (S.Plane.means space.now) (S.Space.count space.now) (S.Space.tied space.now))
            rule.now (O.Order.cell_of_rank order.now (S.Plane.means space.now).frame)) }
        ensures fresh { IfOk result (λ _. state_in self.new ≡ fresh) }
        ensures untold { IfOk result (λ _. (found_by self.new ≡ false) × (told_by self.new ≡ 0)) }
    {
        if self.record.is_some() {
            return Err(OpenFault::NotBlank);
        }
        if space.rows() > 8 {
            return Err(OpenFault::TieRows);
        }
        let record = Record::open(heap, space, order, rule)?;
        self.record = Some(record);
        Ok(())
    }

    // Goes on for at most `steps` steps, from 1 to 1,000,000: until a find is told, until there is
    // nothing left to tell, or until all steps are taken.
    pub fn go(&mut self, steps: u32) -> Result<Answer, GoFault>
        ensures refused { MatchResult result
            (λ _. go_refusal self.old.record steps ≡ None)
            (λ fault. (go_refusal self.old.record steps ≡ Some fault) × (self.new ≡ self.old)) }
        ensures open { (s : Surface) (rule : Rule) (cell : ℕ → ℕ) → IsOpen self.old s rule cell → IsOpen self.new s rule cell }
        ensures goes { (s : Surface) (rule : Rule) (cell : ℕ → ℕ) → IsOpen self.old s rule cell →
            IfOk result (λ answer. Goes (system_of s rule cell) steps self.old self.new answer) }
        ensures steps { IfOk result (λ answer. steps_of answer ≤ steps) }
        ensures onward { IfOk result (λ answer. is_done answer ≡ false → left_in self.new < left_in self.old) }
        ensures found { IfOk result (λ answer. found_by self.new ≡ found_after false (Some answer)) }
        ensures tally { IfOk result (λ answer. told_by self.new ≡ tally_after (told_by self.old) (Some answer)) }
    {
        let record = self.record.as_mut().ok_or(GoFault::Blank)?;
        if !(1..=1_000_000).contains(&steps) {
            return Err(GoFault::Steps);
        }
        Ok(record.go(steps))
    }

    // Whether the cell at column x, row y and generation t of the find is on. Granted only if the last
    // go answered found.
    #[tactic(auto, using(crate::proofs::Finds::opened_cell))]
    pub fn cell(&self, x: u32, y: u32, t: u32) -> Result<bool, CellFault>
        ensures cell { result ≡ cell_answer self.now.record (record { x = x; y = y; t = t }) }
        ensures find { (s : Surface) (rule : Rule) (cell : ℕ → ℕ) → IsOpen self.now s rule cell →
            result ≡ cell_found (found_by self.now) s.frame (spread s (find_of self.now)) (record { x = x; y = y; t = t }) }
    {
        let record = self.record.as_ref().ok_or(CellFault::Blank)?;
        if !record.found {
            return Err(CellFault::NoFind);
        }
        record.cell(Cell { x, y, t })
    }

    // Writes the text of the find's first generation into the page from place `at`; answers the
    // place after it. Granted only if the last go answered found.
    #[tactic(auto, using(crate::proofs::Finds::opened_reads))]
    pub fn write(&self, page: &mut [u8], at: usize) -> Result<usize, WriteFault>
        ensures writes { Writes self.now.record page.old at page.new result }
        ensures text { (s : Surface) (rule : Rule) (cell : ℕ → ℕ) → IsOpen self.now s rule cell →
            text_of self.now ≡ pattern_text s.frame.width s.frame.height (written rule.births rule.survivals) (spread s (find_of self.now)) }
        ensures back { (s : Surface) (rule : Rule) (cell : ℕ → ℕ) → IsOpen self.now s rule cell →
            ReadsAs s.frame.width s.frame.height (written rule.births rule.survivals) (spread s (find_of self.now)) (text_of self.now) }
    {
        let record = self.record.as_ref().ok_or(WriteFault::Blank)?;
        if !record.found {
            return Err(WriteFault::NoFind);
        }
        record.write(page, at)
    }

    // How many finds were told, up to 2^64 - 1.
    pub fn tally(&self) -> Result<u64, TallyFault>
        ensures { result ≡ tally_answer self.now.record }
    {
        let record = self.record.as_ref().ok_or(TallyFault::Blank)?;
        Ok(record.tally)
    }
}
