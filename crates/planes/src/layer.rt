ghost use Rattle.planes.specs.Layers.{one_more, layered};
ghost use Rattle.std.specs.Prelude.{◌≡◌};
ghost use Rattle.std.proofs.Common.{rules};

use crate::place::Place;
use crate::plane::Plane;
use crate::row::Row;
use crate::space::Space;
use crate::tie::Tie;
use frames::Frame;

// No layer adds a row beyond these.
const MOST_ROWS: u32 = 1000;

// A space over another: it has the rows of the one below, then its own.
#[derive(Clone, Copy, Drop, PartialEq, Eq, Debug)]
pub struct Layer<S, R> {
    pub below: S,
    pub own: R,
}

impl<S: Space, R: Row> Plane for Layer<S, R> {
    ghost means = { λ l. S.Plane.means l.below };

    ghost inside = { Prim.search rules };

    ghost own = { Prim.search rules };

    fn frame(&self) -> Frame {
        self.below.frame()
    }

    fn look(&self, x: i32, y: i32) -> Option<Place> {
        self.below.look(x, y)
    }
}

impl<S: Space, R: Row> Space for Layer<S, R> {
    ghost count = { λ l. one_more (S.Space.count l.below) };

    ghost tied = { λ l. layered (S.Space.count l.below) (S.Space.tied l.below) (R.asked l.own (S.Plane.means l.below).frame) };

    fn rows(&self) -> u32 {
        (self.below.rows() + 1).min(MOST_ROWS)
    }

    fn tie(&self, row: u32, cell: u32) -> Tie {
        let rows = self.below.rows();
        if row < rows {
            return self.below.tie(row, cell);
        }
        if row > rows || row >= MOST_ROWS {
            return Tie::Free;
        }
        self.own.asks(&self.below.frame(), cell)
    }
}
