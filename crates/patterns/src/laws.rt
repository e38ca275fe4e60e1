ghost use Rattle.patterns.specs.Laws.{TellingLaws};

// The law of what texts tell stands: a text that is not too long tells its parts exactly when it is of the
// grammar, its sizes are at most 32 and its runs lie in its box.
pub fn telling_stands()
    ensures { TellingLaws }
{}
