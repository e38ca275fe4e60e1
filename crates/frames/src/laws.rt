ghost use Rattle.frames.specs.Limits.{FramesStand};
ghost use Rattle.frames.specs.Numbers.{NumbersStand};

// Which five numbers make a frame, in words, and by which refusal each others are answered.
pub fn frames_stand()
    ensures { FramesStand }
{}

// How cells are numbered, in words: from the top left to the right, downwards, and on in time.
pub fn numbers_stand()
    ensures { NumbersStand }
{}
