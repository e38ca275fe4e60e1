ghost use Rattle.planes.specs.declared.axis.Edge.{Edge};
ghost use Rattle.planes.specs.declared.layer.Layer.{Layer};
ghost use Rattle.planes.specs.declared.mirror.MirrorKind.{MirrorKind};
ghost use Rattle.planes.specs.declared.pins.Pins.{Pins};
ghost use Rattle.planes.specs.declared.sheet.Sheet.{Sheet};
ghost use Rattle.rolls.specs.Rolls.{Surface, surface};
ghost use Rattle.std.specs.Prelude.{◌≡◌};

use planes::{Fixed, Mirror, Plane, Space, Surface as AnyPlane};

/// The space that a problem tells: a plane, the mirror over it, and over both the cells that are fixed.
pub type ToldSpace = Fixed<Mirror<AnyPlane>>;

/// What a program makes of the space that a problem tells: that space as it is, one of its parts on
/// another plane, or one with a layer more.
pub trait Spaces {
    /// The space that is listed.
    type Made: Space + Drop;

    /// What the space says that is made of one.
    ghost made: { Self → Layer (Layer (Sheet Edge Edge) MirrorKind) Pins → Surface };

    /// Makes it.
    fn space(&self, told: ToldSpace) -> Self::Made
        ensures { surface (Self.Made.Plane.means result) (Self.Made.Space.count result) (Self.Made.Space.tied result) ≡ made self.now told };
}

/// The space that is told, as it is.
#[derive(Clone, Copy, PartialEq, Eq, Debug)]
pub struct AsTold;

impl Spaces for AsTold {
    type Made = ToldSpace;

    ghost made = { λ _ told. surface (⟦<ToldSpace as Plane>⟧.means told) (⟦<ToldSpace as Space>⟧.count told) (⟦<ToldSpace as Space>⟧.tied told) };

    fn space(&self, told: ToldSpace) -> ToldSpace {
        told
    }
}
