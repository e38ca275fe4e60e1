ghost use Rattle.choices.specs.Choices.{chosen_cell, chosen_rank};
ghost use Rattle.choices.specs.declared.any_order.AnyOrder.TheVariants.{Rows, Columns, Generations};
ghost use Rattle.orders.specs.Turns.{places_within, places_ranked, places_back, places_forth};
ghost use Rattle.std.specs.Prelude.{true, false, refl};

use frames::Frame;
use orders::{Columns, Generations, Order, Rows};

// One of the supplied orders.
#[derive(Clone, Copy, PartialEq, Eq, Debug)]
pub enum AnyOrder {
    Rows,
    Columns,
    Generations,
}

// A match in each call: a choice at run time without `dyn` has no plainer form.
impl Order for AnyOrder {
    ghost cell_of_rank = { chosen_cell };

    ghost rank_of_cell = { chosen_rank };

    ghost within = { elim [
      | Rows ↦ places_within false
      | Columns ↦ places_within true
      | Generations ↦ λ f rank less. less
    ] };

    ghost ranked = { elim [
      | Rows ↦ places_ranked false
      | Columns ↦ places_ranked true
      | Generations ↦ λ f cell less. less
    ] };

    ghost back = { elim [
      | Rows ↦ places_back false
      | Columns ↦ places_back true
      | Generations ↦ λ f rank less. refl
    ] };

    ghost forth = { elim [
      | Rows ↦ places_forth false
      | Columns ↦ places_forth true
      | Generations ↦ λ f cell less. refl
    ] };

    fn cell_at(&self, frame: &Frame, rank: u32) -> u32 {
        match self {
            AnyOrder::Rows => Rows {}.cell_at(frame, rank),
            AnyOrder::Columns => Columns {}.cell_at(frame, rank),
            AnyOrder::Generations => Generations.cell_at(frame, rank),
        }
    }

    fn rank_of(&self, frame: &Frame, cell: u32) -> u32 {
        match self {
            AnyOrder::Rows => Rows {}.rank_of(frame, cell),
            AnyOrder::Columns => Columns {}.rank_of(frame, cell),
            AnyOrder::Generations => Generations.rank_of(frame, cell),
        }
    }
}
