ghost use Rattle.keeping.specs.Laws.{AskingLaws, WorkingLaws};

// The laws of asking stand: a filling of the box keeps the ties and the rule exactly when nothing is found
// that does not hold, and what is found is the first.
pub fn asking_stands()
    ensures { AskingLaws }
{}

// The laws of working out stand: what is worked out fills the box and begins with its first generation,
// and each filling that keeps the rule is what is worked out of its first generation.
pub fn working_stands()
    ensures { WorkingLaws }
{}
