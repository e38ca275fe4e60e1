ghost use Rattle.std.specs.Prelude.{◌≡◌, ℕ, ◌+◌, ◌<◌, ◌≤◌, false, IfSome, MatchOption, Some};
ghost use Rattle.systems.specs.Systems.{Sys};
ghost use Rattle.search.specs.Answers.{steps_of};
ghost use Rattle.search.specs.Moves.{Due, Gone, HasStep, found_after, is_done, reached, tally_after, turns_back};
ghost use Rattle.search.specs.Records.{AsOpened};
ghost use Rattle.search.specs.Standings.{Follows};

use crate::answer::Answer;
use crate::record::Record;
use crate::standing::Standing;

impl Record {
    // Whether the search has to turn back: on a contradiction or a told find.
    fn turns_back(&self) -> bool
        ensures { result ≡ turns_back self.now.standing }
    {
        matches!(self.standing, Standing::Contradiction | Standing::Told)
    }

    // The answer that is due before another step: found at an untold find, which is told by this;
    // done where the search has to turn back and no decision is off.
    fn due(&mut self, taken: u32) -> Option<Answer>
        ensures steps { IfSome result (λ a. steps_of a ≡ taken) }
        ensures same { AsOpened self.old self.new }
        ensures found { self.new.found ≡ found_after self.old.found result }
        ensures tally { self.new.tally ≡ tally_after self.old.tally result }
        ensures onward { IfSome result (λ a. is_done a ≡ false → reached self.old < reached self.new) }
        ensures due { MatchOption result ((self.new ≡ self.old) × HasStep self.old) (λ a. (S : Sys) → Follows self.old S → Due S self.old self.new a) }
    {
        if let Standing::Find = self.standing {
            self.standing = Standing::Told;
            self.found = true;
            self.tally = self.tally.saturating_add(1);
            return Some(Answer::Found(taken));
        }
        if self.turns_back() && self.last_off().is_none() {
            return Some(Answer::Done(taken));
        }
        None
    }

    // Goes on for at most so many steps.
    pub(crate) fn go(&mut self, steps: u32) -> Answer
        ensures steps { steps_of result ≤ steps }
        ensures same { AsOpened self.old self.new }
        ensures found { self.new.found ≡ found_after false (Some result) }
        ensures tally { self.new.tally ≡ tally_after self.old.tally (Some result) }
        ensures onward { 1 ≤ steps → is_done result ≡ false → reached self.old < reached self.new }
        ensures goes { (S : Sys) → Follows self.old S → Gone S steps self.old self.new result }
    {
        self.found = false;
        for taken in 0..steps {
            if let Some(answer) = self.due(taken) {
                return answer;
            }
            self.step();
        }
        self.due(steps).unwrap_or(Answer::Paused(steps))
    }
}
