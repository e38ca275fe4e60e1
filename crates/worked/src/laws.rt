ghost use Rattle.planes.specs.declared.axis.Edge.{Edge};
ghost use Rattle.planes.specs.declared.layer.Layer.{Layer};
ghost use Rattle.planes.specs.declared.mirror.MirrorKind.{MirrorKind};
ghost use Rattle.planes.specs.declared.pins.Pins.{Pins};
ghost use Rattle.planes.specs.declared.sheet.Sheet.{Sheet};
ghost use Rattle.problem.specs.Reading.{space_said};
ghost use Rattle.rolls.specs.Rolls.{surface};
ghost use Rattle.std.specs.Prelude.{◌≡◌};
ghost use Rattle.worked.specs.Block.{surface_said};
ghost use Rattle.worked.specs.Worked.{WorkedList};

use choices::Surface;
use planes::{Fixed, Mirror, Plane, Space};

// Every worked example comes out as the list of them has it.
pub fn worked_list_stands()
    ensures { WorkedList }
{}

// A problem's space says what is defined for it.
pub fn problem_spaces_stand()
    ensures { (s : Layer (Layer (Sheet Edge Edge) MirrorKind) Pins) →
        surface (⟦<Fixed<Mirror<Surface>> as Plane>⟧.means s) (⟦<Fixed<Mirror<Surface>> as Space>⟧.count s) (⟦<Fixed<Mirror<Surface>> as Space>⟧.tied s) ≡ surface_said s.below.below.frame (space_said s) }
{}
