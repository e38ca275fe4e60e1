ghost use Rattle.std.specs.Prelude.{◌≡◌, ℕ, ◌≤◌, ◌==◌, length};
ghost use Rattle.std.specs.List.{find};
ghost use Rattle.planes.specs.Pins.{own_tie, pinned};
ghost use Rattle.planes.specs.Ties.{Within};

use crate::row::Row;
use crate::tie::Tie;
use arrayvec::ArrayVec;
use frames::Frame;

// A cell that has to be on or off, by its number.
#[derive(Clone, Copy, Default, PartialEq, Eq, Debug)]
pub struct Pin {
    pub cell: u32,
    pub on: bool,
}

// The cells that are fixed, up to 64.
#[derive(Drop)]
pub struct Pins {
    pub(crate) held: ArrayVec<Pin, 64>,
    ghost few: { length held.items ≤ 64 },
}

// The first pin of a cell.
fn first_of(pins: &[Pin], cell: u32) -> Option<Pin>
    ensures { result ≡ find (λ p. p.cell == cell) pins.now }
{
    pins.iter().find(|pin| pin.cell == cell).copied()
}

impl Pins {
    // What the first pin of a cell asks of it.
    pub(crate) fn tie_of(&self, cell: u32) -> Tie
        ensures value { result ≡ pinned self.now.held.items cell }
        ensures within { (n : ℕ) → Within n result }
    {
        match first_of(self.held.as_slice(), cell) {
            Some(pin) if pin.on => Tie::On,
            Some(_) => Tie::Off,
            None => Tie::Free,
        }
    }
}

impl Row for Pins {
    ghost asked = { λ pins f. own_tie f pins.held.items };

    fn asks(&self, frame: &Frame, cell: u32) -> Tie {
        if cell >= frame.cells() {
            return Tie::Free;
        }
        self.tie_of(cell)
    }
}
