ghost use Rattle.std.specs.Prelude.{◌≡◌, ℕ, ◌≤◌};
ghost use Rattle.frames.specs.Frames.{cells};
ghost use Rattle.planes.specs.Ties.{TieIn};
ghost use Rattle.planes.specs.declared.tie.Tie.{Tie};

use crate::plane::Plane;
use crate::tie::Tie;

// A plane with rows of ties, at most 1,000: what is asked of each cell beyond the rule.
pub trait Space: Plane {
    ghost count: { Self → ℕ };

    ghost tied: { Self → ℕ → ℕ → Tie };

    fn rows(&self) -> u32
        ensures { (result ≡ count self.now) × (result ≤ 1000) };

    fn tie(&self, row: u32, cell: u32) -> Tie
        ensures { (result ≡ tied self.now row cell) × (TieIn (count self.now) (cells (Self.Plane.means self.now).frame) row cell result) };
}
