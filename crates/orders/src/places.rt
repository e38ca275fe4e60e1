ghost use Rattle.orders.specs.Orders.{places_cell, places_rank};
ghost use Rattle.orders.specs.Turns.{places_within, places_ranked, places_back, places_forth};

use crate::order::Order;
use frames::{Cell, Frame};

// Place by place, all generations of one before the next: by row and column, or by column and row.
#[derive(Clone, Copy, Default, PartialEq, Eq, Debug)]
pub struct Places<const BY_COLUMN: bool>;

// By row, column and generation.
pub type Rows = Places<false>;

// By column, row and generation.
pub type Columns = Places<true>;

impl<const BY_COLUMN: bool> Order for Places<BY_COLUMN> {
    ghost cell_of_rank = { λ o. places_cell BY_COLUMN };

    ghost rank_of_cell = { λ o. places_rank BY_COLUMN };

    ghost within = { λ o. places_within BY_COLUMN };

    ghost ranked = { λ o. places_ranked BY_COLUMN };

    ghost back = { λ o. places_back BY_COLUMN };

    ghost forth = { λ o. places_forth BY_COLUMN };

    fn cell_at(&self, frame: &Frame, rank: u32) -> u32 {
        let cells = frame.cells();
        if rank >= cells {
            return cells;
        }
        let (place, t) = (rank / frame.period(), rank % frame.period());
        let (x, y) = if BY_COLUMN {
            (place / frame.height(), place % frame.height())
        } else {
            (place % frame.width(), place / frame.width())
        };
        frame.number_of(Cell { x, y, t }).unwrap_or(cells)
    }

    fn rank_of(&self, frame: &Frame, cell: u32) -> u32 {
        let Some(Cell { x, y, t }) = frame.cell_at(cell) else {
            return frame.cells();
        };
        let place = if BY_COLUMN {
            x * frame.height() + y
        } else {
            y * frame.width() + x
        };
        place * frame.period() + t
    }
}
