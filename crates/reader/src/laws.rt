ghost use Rattle.reader.specs.Again.{Repeats};
ghost use Rattle.reader.specs.Laws.{CallLaws};

// After the end and after a fault the reader answers the same again.
pub fn answers_repeat()
    ensures { Repeats }
{}

// A new reader's calls, one after another: they come to the end exactly when the text is of at most 65,536 bytes
// and shows a pattern, and then answer its parts. Items follow one another and stand where they start, and so does
// the rule of a heading. A fault that they answer is the text's: for that cause, and at the
// line and column where it stands. A size over 32 and a run outside are answered whatever comes after them, and a
// text that is too long is refused by the first call.
pub fn calls_stand()
    ensures { CallLaws }
{}
