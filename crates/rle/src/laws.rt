ghost use Rattle.rle.specs.Back.{RoundTrip};
ghost use Rattle.rle.specs.Laws.{ReadingLaws};
ghost use Rattle.rle.specs.Patterns.{PatternLaws};

// The laws of reading stand: a text is read to its end exactly when it is of the grammar, its sizes are at
// most 32 and its runs lie in its box, and then it gives its parts. Any other is at fault once: for a byte, at the
// first that no text of the grammar has there; for a size, exactly where the first over 32 starts; for a run,
// exactly where the first outside the box starts; and where it ends too soon, after its last byte. A line is one
// more than the newlines before it, and a column one more than the bytes before it in its line.
pub fn reading_stands()
    ensures { ReadingLaws }
{}

// The text of a pattern reads as that pattern, for every box, rule and pattern.
pub fn round_trip_stands()
    ensures { RoundTrip }
{}

// A text shows one pattern, by one reading of its bytes; and each pattern is written by one row of runs: rows stop
// at their last on cell, steps down are one run to the next row that has one, and equal marks are one run.
pub fn patterns_stand()
    ensures { PatternLaws }
{}
