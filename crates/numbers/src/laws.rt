ghost use Rattle.numbers.specs.Digits.{OneRow};

// One row of digits stands for each number, and it is the row that is written and read here.
pub fn digits_stand()
    ensures { OneRow }
{}
