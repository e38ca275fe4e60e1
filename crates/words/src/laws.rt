ghost use Rattle.words.specs.Laws.{WordLaws};

/// A word that comes next is given and passed, and where none does nothing is passed; the words that are
/// numbers are the decimal forms of these; and a value is all that follows its key and one blank.
pub fn words_stand()
    ensures { WordLaws }
{}
