ghost use Rattle.std.specs.Prelude.{List, [], ◌∷◌, ◌++◌};
ghost use Rattle.calls.specs.Asked.{asked};
ghost use Rattle.calls.specs.Histories.{History, Performed};
ghost use Rattle.calls.specs.Kinds.{Kind};
ghost use Rattle.calls.specs.Ledgers.{Ledger, Made};

use crate::call::{Call, Reply};
use crate::fault::CallFault;
use orders::Order;
use planes::{Plane, Space};
use search::Search;

// Makes one call of a search. Memory is taken by an `Open` of a blank search alone, out of what the call
// brings; an opened search refuses to be opened before it takes any.
pub fn perform<S: Space, O: Order>(
    search: &mut Search,
    call: &Call<'_, S, O>,
    page: &mut [u8],
) -> Result<Reply, CallFault>
    ensures kind { Kind search.old page.old (asked S.Plane.means S.Space.count S.Space.tied O.Order.cell_of_rank call.now) result search.new page.new }
    ensures performed { (l : Ledger) → Performed l search.old page.old (asked S.Plane.means S.Space.count S.Space.tied O.Order.cell_of_rank call.now) result search.new page.new }
    ensures history { (made : List Made) → History made search.old →
        History (made ++ record { before = page.old; call = asked S.Plane.means S.Space.count S.Space.tied O.Order.cell_of_rank call.now; answer = result; after = page.new } ∷ []) search.new }
{
    Ok(match call {
        Call::Open(opening) => {
            search.open(opening.heap, opening.space, opening.order, opening.rule)?;
            Reply::Opened
        }
        Call::Go(steps) => Reply::Went(search.go(*steps)?),
        Call::Cell(cell) => Reply::Read(search.cell(cell.x, cell.y, cell.t)?),
        Call::Write(at) => Reply::Wrote(search.write(page, *at)?),
        Call::Tally => Reply::Counted(search.tally()?),
    })
}
