ghost use Rattle.search.specs.Answers.{steps_of};
ghost use Rattle.std.specs.Prelude.{◌≡◌};

// What a go came to, each with the steps that it took.
#[derive(Clone, Copy, PartialEq, Eq, Debug)]
pub enum Answer {
    // a find was told
    Found(u32),
    // there is nothing left to tell
    Done(u32),
    // all steps were taken
    Paused(u32),
}

impl Answer {
    // The steps that were taken.
    pub fn steps(&self) -> u32
        ensures { result ≡ steps_of self.now }
    {
        match self {
            Answer::Found(steps) | Answer::Done(steps) | Answer::Paused(steps) => *steps,
        }
    }
}
