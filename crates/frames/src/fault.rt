ghost use Rattle.frames.specs.Faults.{number_of};
ghost use Rattle.std.specs.Prelude.{◌≡◌};

// Why five numbers make no frame.
#[derive(Clone, Copy, PartialEq, Eq, Debug)]
pub enum FrameFault {
    // width or height not in 1..=32
    Size,
    // period not in 1..=16
    Period,
    // more than 4,096 cells
    Cells,
    // a drift not in -8..=8
    Drift,
}

impl FrameFault {
    // The number that a user sees.
    pub fn number(&self) -> u32
        ensures { result ≡ number_of self.now }
    {
        match self {
            FrameFault::Size => 1,
            FrameFault::Period => 2,
            FrameFault::Cells => 3,
            FrameFault::Drift => 4,
        }
    }
}
