ghost use Rattle.problem.specs.Laws.{ProblemLaws};

/// The laws of reading stand: a text is a problem exactly when its lines are written forms, and then it
/// says what is written; and a refusal names the first line with which no problem begins, and why that
/// line is refused.
pub fn problems_stand()
    ensures { ProblemLaws }
{}
