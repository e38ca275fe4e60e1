ghost use Rattle.frames.specs.declared.frame.Frame.{Frame};
ghost use Rattle.planes.specs.Examples.{PlanesWorked};
ghost use Rattle.planes.specs.Fixes.{FixesStand};
ghost use Rattle.planes.specs.Images.{MirrorsStand};
ghost use Rattle.planes.specs.Layering.{LayerRight};
ghost use Rattle.planes.specs.Layers.{kind_of, mirror_tie};
ghost use Rattle.planes.specs.Looks.{plain, torus, cylinder};
ghost use Rattle.planes.specs.Remainders.{RemaindersStand};
ghost use Rattle.planes.specs.declared.sheet.Sheet.{Sheet};
ghost use Rattle.planes.specs.declared.axis.Bounded.{Bounded};
ghost use Rattle.planes.specs.declared.axis.Round.{Round};
ghost use Rattle.std.specs.Prelude.{◌≡◌, ℕ};

use crate::layer::Layer;
use crate::mirror::MirrorKind;
use crate::plane::Plane;
use crate::row::Row;
use crate::sheet::{Cylinder, Plain, Torus};
use crate::space::Space;

// Each of the three planes means what its name says, over any frame.
pub fn planes_stand()
    ensures plain { (p : Sheet Bounded Bounded) → ⟦<Plain as Plane>⟧.means p ≡ plain p.frame }
    ensures torus { (p : Sheet Round Round) → ⟦<Torus as Plane>⟧.means p ≡ torus p.frame }
    ensures cylinder { (p : Sheet Round Bounded) → ⟦<Cylinder as Plane>⟧.means p ≡ cylinder p.frame }
{}

// Where columns or rows go round, a look falls below their number, and differs from the number looked
// at by a multiple of theirs.
pub fn remainders_stand()
    ensures { RemaindersStand }
{}

// A layer means the plane below it; it asks the rows below as they are, and then its own, unless 1,000
// are there already.
pub fn layers_stand<S: Space, R: Row>(layer: &Layer<S, R>)
    ensures plane { ⟦<Layer<S, R> as Plane>⟧.means layer.now ≡ S.Plane.means layer.now.below }
    ensures rows { LayerRight (S.Space.count layer.now.below) (S.Space.tied layer.now.below) (R.asked layer.now.own (S.Plane.means layer.now.below).frame) (⟦<Layer<S, R> as Space>⟧.count layer.now) (⟦<Layer<S, R> as Space>⟧.tied layer.now) }
{}

// A mirror of the kind of a number asks what is defined for that number: each cell is to be as its
// image in the same generation, and off where the box has no such cell.
pub fn mirrors_stand()
    ensures asked { (f : Frame) (number cell : ℕ) → ⟦<MirrorKind as Row>⟧.asked (kind_of number) f cell ≡ mirror_tie f number cell }
    ensures images { MirrorsStand }
{}

// A fix that is granted asks its value of its cell, and of every other cell what was asked before; and
// each that is refused is so for its reason.
pub fn fixes_stand()
    ensures { FixesStand }
{}

// The worked examples of looks and ties stand.
pub fn worked_planes_stand()
    ensures { PlanesWorked }
{}
