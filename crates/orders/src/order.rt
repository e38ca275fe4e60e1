ghost use Rattle.std.specs.Prelude.{◌≡◌, ℕ, ◌<◌};
ghost use Rattle.frames.specs.Frames.{cells};
ghost use Rattle.frames.specs.declared.frame.Frame.{Frame};
ghost use Rattle.orders.specs.Orders.{bounded};

use frames::Frame;

// An order of the cells: each has a rank, and each rank a cell, all below the number of cells. Where
// an order has none it answers the number of cells, as its callers are promised, and no `Option`.
pub trait Order {
    ghost cell_of_rank: { Self → Frame → ℕ → ℕ };

    ghost rank_of_cell: { Self → Frame → ℕ → ℕ };

    // The cell of a rank; the number of cells where there is no such rank.
    fn cell_at(&self, frame: &Frame, rank: u32) -> u32
        ensures { result ≡ bounded frame.now (cell_of_rank self.now frame.now) rank };

    // The rank of a cell; the number of cells where there is no such cell.
    fn rank_of(&self, frame: &Frame, cell: u32) -> u32
        ensures { result ≡ bounded frame.now (rank_of_cell self.now frame.now) cell };

    ghost within: { (o : Self) (f : Frame) (rank : ℕ) → rank < cells f → cell_of_rank o f rank < cells f };

    ghost ranked: { (o : Self) (f : Frame) (cell : ℕ) → cell < cells f → rank_of_cell o f cell < cells f };

    ghost back: { (o : Self) (f : Frame) (rank : ℕ) → rank < cells f → rank_of_cell o f (cell_of_rank o f rank) ≡ rank };

    ghost forth: { (o : Self) (f : Frame) (cell : ℕ) → cell < cells f → cell_of_rank o f (rank_of_cell o f cell) ≡ cell };
}
