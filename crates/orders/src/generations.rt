ghost use Rattle.std.proofs.Common.{rules};

use crate::order::Order;
use frames::Frame;

// By generation, row and column: the rank of a cell is its number.
#[derive(Clone, Copy, PartialEq, Eq, Debug)]
pub struct Generations;

impl Order for Generations {
    ghost cell_of_rank = { λ o f rank. rank };

    ghost rank_of_cell = { λ o f cell. cell };

    ghost within = { Prim.search rules };

    ghost ranked = { Prim.search rules };

    ghost back = { Prim.search rules };

    ghost forth = { Prim.search rules };

    fn cell_at(&self, frame: &Frame, rank: u32) -> u32 {
        rank.min(frame.cells())
    }

    fn rank_of(&self, frame: &Frame, cell: u32) -> u32 {
        cell.min(frame.cells())
    }
}
