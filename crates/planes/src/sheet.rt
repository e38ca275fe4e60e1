ghost use Rattle.planes.specs.Looks.{sheet, plain, torus, cylinder, across_in_box};
ghost use Rattle.planes.specs.declared.tie.Tie.TheVariants.{Free};
ghost use Rattle.std.specs.Prelude.{◌≡◌};
ghost use Rattle.std.proofs.Common.{rules};

use crate::axis::{Axis, Bounded, Round};
use crate::place::Place;
use crate::plane::Plane;
use crate::space::Space;
use crate::tie::Tie;
use frames::Frame;

// A box whose columns and rows lie on an axis each.
#[derive(Clone, Copy)]
pub struct Sheet<X, Y> {
    pub frame: Frame,
    pub columns: X,
    pub rows: Y,
}

// Nothing lies outside the box.
pub type Plain = Sheet<Bounded, Bounded>;

// Columns and rows go round: the far edge meets the near one.
pub type Torus = Sheet<Round, Round>;

// Columns go round; nothing lies above or below the box.
pub type Cylinder = Sheet<Round, Bounded>;

impl<X, Y> Sheet<X, Y> {
    // A box over two axes.
    pub(crate) fn over(frame: Frame, columns: X, rows: Y) -> Sheet<X, Y>
        ensures frame { result.frame ≡ frame }
        ensures columns { result.columns ≡ columns }
        ensures rows { result.rows ≡ rows }
    {
        Sheet {
            frame,
            columns,
            rows,
        }
    }
}

impl<X: Axis + Default, Y: Axis + Default> Sheet<X, Y> {
    pub fn new(frame: Frame) -> Sheet<X, Y>
        ensures { result.frame ≡ frame }
    {
        Sheet::over(frame, X::default(), Y::default())
    }
}

impl<X: Axis, Y: Axis> Plane for Sheet<X, Y> {
    ghost means = { λ s. sheet s.frame (X.place s.columns) (Y.place s.rows) };

    ghost inside = { λ s x y. across_in_box s.frame (X.place s.columns s.frame.width x) (Y.place s.rows s.frame.height y) (X.below s.columns s.frame.width x s.frame.wide) (Y.below s.rows s.frame.height y s.frame.tall) };

    ghost own = { λ s x y h k. Prim.search rules };

    fn frame(&self) -> Frame {
        self.frame
    }

    fn look(&self, x: i32, y: i32) -> Option<Place> {
        // the rows first, since past the edge of a cylinder they answer without a division
        let y = self.rows.place(y, self.frame.height())?;
        let x = self.columns.place(x, self.frame.width())?;
        Some(Place { x, y })
    }
}

impl<X: Axis, Y: Axis> Space for Sheet<X, Y> {
    ghost count = { λ s. 0 };

    ghost tied = { λ s row cell. Free };

    fn rows(&self) -> u32 {
        0
    }

    fn tie(&self, row: u32, cell: u32) -> Tie {
        Tie::Free
    }
}
