ghost use Rattle.std.specs.Prelude.{◌≡◌, ◌≤◌, [], length, OnOk, OnErr};
ghost use Rattle.planes.specs.Layering.{FixAsks};
ghost use Rattle.planes.specs.Pins.{holding, fixed_cell};

use crate::fault::FixFault;
use crate::layer::Layer;
use crate::pins::{Pin, Pins};
use crate::space::Space;
use crate::tie::Tie;
use arrayvec::ArrayVec;
use frames::Cell;

// A layer that fixes up to 64 cells, at first none.
pub type Fixed<S> = Layer<S, Pins>;

impl<S: Space> Layer<S, Pins> {
    // The layer over `below` that fixes nothing yet.
    pub fn new(below: S) -> Fixed<S>
        ensures below { result.below ≡ below }
        ensures empty { result.own.held.items ≡ [] }
    {
        Layer {
            below,
            own: Pins {
                held: ArrayVec::new(),
            },
        }
    }

    // Fixes one cell more.
    pub fn fix(&mut self, x: u32, y: u32, t: u32, on: bool) -> Result<(), FixFault>
        ensures pins { holding self.new.own.held.items result ≡ fixed_cell (S.Plane.means self.old.below).frame self.old.own.held.items x y t on }
        ensures asks { OnOk result (FixAsks (S.Plane.means self.old.below).frame (S.Space.count self.old.below) x y t on (⟦<Fixed<S> as Space>⟧.tied self.old) (⟦<Fixed<S> as Space>⟧.tied self.new)) }
        ensures below { self.new.below ≡ self.old.below }
        ensures refused { OnErr result (self.new ≡ self.old) }
        ensures few { OnOk result (length self.new.own.held.items ≤ 64) }
    {
        let frame = self.below.frame();
        let cell = frame.number_of(Cell { x, y, t }).ok_or(FixFault::NoCell)?;
        if self.own.tie_of(cell) != Tie::Free {
            return Err(FixFault::Held);
        }
        if self.own.held.is_full() {
            return Err(FixFault::Full);
        }
        self.own.held.push(Pin { cell, on });
        Ok(())
    }
}
