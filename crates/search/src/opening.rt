ghost use Rattle.std.specs.Prelude.{◌≡◌, ℕ, ◌+◌, ◌<◌, ◌≤◌, [], false, true, not, IfOk, vec_len, vec_capacity};
ghost use Rattle.frames.specs.Frames.{cells};
ghost use Rattle.systems.specs.Spaces.{classes_by_rank};
ghost use Rattle.systems.specs.Systems.{Sys};
ghost use Rattle.histories.specs.Searches.{fresh};
ghost use Rattle.rolls.specs.Rolls.{surface};
ghost use Rattle.settling.specs.Boards.{trail_of, values_of, settled_len, trail_len};
ghost use Rattle.search.specs.Moves.{MayOpen};
ghost use Rattle.search.specs.Opening.{Searches};
ghost use Rattle.search.specs.Stacks.{is_contradiction, is_told};
ghost use Rattle.search.specs.Standings.{Follows, state_of};
ghost use Rattle.search.specs.Records.{OnlySearch};

use crate::record::Record;
use crate::standing::Standing;
use classes::Classes;
use frames::Frame;
use gathering::System;
use orders::Order;
use planes::{Plane, Space};
use rules::Rule;
use settling::Board;
use std::alloc::{AllocError, Global};

// The class of the cell of each rank.
fn ranked_classes<O: Order>(
    heap: Global,
    order: &O,
    frame: &Frame,
    classes: &Classes,
) -> Result<Vec<u16>, AllocError>
    requires { vec_len classes.now.labels ≡ cells frame.now }
    ensures { IfOk result (λ ranks. ranks.items ≡ classes_by_rank classes.now.labels.items (O.Order.cell_of_rank order.now frame.now) (cells frame.now)) }
{
    // no From takes a u32 to a usize
    let mut ranks = Vec::with_capacity(heap, frame.cells() as usize)?;
    for rank in 0..frame.cells() {
        if let Some(class) = classes.class_of(order.cell_at(frame, rank) as usize) {
            ranks.push(class)?;
        }
    }
    Ok(ranks)
}

impl Record {
    // The record of a search that was opened on a space, an order and a rule: settled, with no
    // decision and nothing told. A torn class is a contradiction that never goes.
    // The four stay apart: a struct of them would be made for this one call and taken apart at once.
    pub(crate) fn open<S: Space, O: Order>(
        heap: Global,
        space: &S,
        order: &O,
        rule: &Rule,
    ) -> Result<Record, AllocError>
        ensures searches { IfOk result (λ r. Searches r (surface (S.Plane.means space.now) (S.Space.count space.now) (S.Space.tied space.now)) rule.now (O.Order.cell_of_rank order.now (S.Plane.means space.now).frame)) }
        ensures fresh { IfOk result (λ r. state_of r ≡ fresh) }
        ensures untold { IfOk result (λ r. r.found ≡ false) }
        ensures none_told { IfOk result (λ r. r.tally ≡ 0) }
    {
        let frame = space.frame();
        let system = System::of(heap, space)?;
        let ranks = ranked_classes(heap, order, &frame, system.classes())?;
        let torn = system.classes().torn();
        let board = Board::of(heap, system, rule)?;
        let decisions = Vec::with_capacity(heap, ranks.len())?;
        let mut record = Record {
            frame,
            rule: *rule,
            ranks,
            board,
            decisions,
            standing: Standing::Contradiction,
            found: false,
            tally: 0,
        };
        record.settle_first(torn);
        Ok(record)
    }

    // Settles for the first time, unless a class is torn: every instance is looked at once.
    fn settle_first(&mut self, torn: bool)
        requires { vec_len self.old.decisions ≡ 0 }
        ensures same { OnlySearch self.old self.new }
        ensures undecided { self.new.decisions ≡ self.old.decisions }
        ensures untold { is_contradiction self.old.standing ≡ true → is_told self.new.standing ≡ false }
        ensures follows { (S : Sys) → MayOpen self.old S torn → Follows self.new S }
    {
        if torn {
            return;
        }
        if let Ok(()) = self.board.settle_all() {
            self.standing = self.settle(0);
        }
    }
}
