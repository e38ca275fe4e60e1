ghost use Rattle.frames.specs.declared.frame.Frame.{Frame};
ghost use Rattle.orders.specs.Orders.{columns_rank, rows_rank};
ghost use Rattle.orders.specs.Sequences.{ColumnsRise, GenerationsRise, RowsRise};
ghost use Rattle.orders.specs.declared.generations.Generations.{Generations};
ghost use Rattle.orders.specs.declared.places.Places.{Places};
ghost use Rattle.std.specs.Prelude.{◌≡◌, ℕ};

use crate::generations::Generations;
use crate::order::Order;
use crate::places::{Columns, Rows};

// The supplied orders rank by what their names say.
pub fn ranks_stand()
    ensures rows { (o : Places 0) (f : Frame) (cell : ℕ) → ⟦<Rows as Order>⟧.rank_of_cell o f cell ≡ rows_rank f cell }
    ensures columns { (o : Places 1) (f : Frame) (cell : ℕ) → ⟦<Columns as Order>⟧.rank_of_cell o f cell ≡ columns_rank f cell }
    ensures generations { (o : Generations) (f : Frame) (cell : ℕ) → ⟦<Generations as Order>⟧.rank_of_cell o f cell ≡ cell }
{}

// And so they take the cells in the sequence that their names say.
pub fn orders_stand()
    ensures rows { RowsRise }
    ensures columns { ColumnsRise }
    ensures generations { GenerationsRise }
{}
