ghost use Rattle.checking.specs.Examples.{ChecksWorked};
ghost use Rattle.checking.specs.Laws.{AcceptingLaws, RefusingLaws, RollLaws};
ghost use Rattle.checking.specs.Verdicts.{VerdictLaws};

// A text that meets no other refusal is accepted exactly when its pattern keeps the rule, the drift and the
// ties, which is when it is the first generation of a member of the roll; no other is accepted.
pub fn accepting_stands()
    ensures { AcceptingLaws }
{}

// A fault of the text is one that a reader comes to, and what is told of a text that is not accepted for
// its cells is the first instance that does not hold, or where all hold the first tie.
pub fn refusing_stands()
    ensures { RefusingLaws }
{}

// Over every space of at most 8 rows of ties the first generations of the roll are exactly the patterns
// of accepted texts; the text that is written of a member is accepted.
pub fn roll_stands()
    ensures { RollLaws }
{}

/// The law of verdicts stands: what the check computes of a text is the verdict whose line holds of it, in the words of
/// the grammar, the roll and the ties, and no other line does but want of memory.
pub fn verdicts_stand()
    ensures { VerdictLaws }
{}

// The worked examples of checking stand.
pub fn worked_checks_stand()
    ensures { ChecksWorked }
{}
