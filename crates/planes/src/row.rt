ghost use Rattle.std.specs.Prelude.{◌≡◌, ℕ, ◌≤◌};
ghost use Rattle.frames.specs.Frames.{cells};
ghost use Rattle.frames.specs.declared.frame.Frame.{Frame};
ghost use Rattle.planes.specs.Ties.{Within};
ghost use Rattle.planes.specs.declared.tie.Tie.{Tie};
ghost use Rattle.planes.specs.declared.tie.Tie.TheVariants.{Free};

use crate::tie::Tie;
use frames::Frame;

// What a layer's own row asks of the cells of a box.
pub trait Row {
    ghost asked: { Self → Frame → ℕ → Tie };

    fn asks(&self, frame: &Frame, cell: u32) -> Tie
        ensures value { result ≡ asked self.now frame.now cell }
        ensures within { Within (cells frame.now) result }
        ensures past { cells frame.now ≤ cell → result ≡ Free };
}
