ghost use Rattle.planes.specs.Faults.{number_of};
ghost use Rattle.std.specs.Prelude.{◌≡◌};

// Why a cell is not fixed.
#[derive(Clone, Copy, PartialEq, Eq, Debug)]
pub enum FixFault {
    // the box has no such cell
    NoCell,
    // the layer holds the cell already
    Held,
    // the layer holds 64 cells
    Full,
}

impl FixFault {
    // The number that a user sees.
    pub fn number(&self) -> u32
        ensures { result ≡ number_of self.now }
    {
        match self {
            FixFault::NoCell => 7,
            FixFault::Held => 8,
            FixFault::Full => 9,
        }
    }
}
