ghost use Rattle.calls.specs.Asked.{Asked, asked};
ghost use Rattle.calls.specs.Histories.{Performed};
ghost use Rattle.calls.specs.Kinds.{Kind};
ghost use Rattle.calls.specs.Ledgers.{Ledger};
ghost use Rattle.either.specs.Either.{either};

use crate::call::{Call, Reply};
use crate::fault::CallFault;
use crate::performing::perform;
use either::Either;
use orders::Order;
use planes::Space;
use search::Search;

/// A call of a search, whatever the types of the space and the order are that it may open on. Calls of two types
/// stand in one list as `Either`, and so do those of more, one `Either` in the other.
pub trait AnyCall {
    // what is asked
    ghost asks: { Self → Asked };

    /// Makes the call, as `perform` does.
    fn make(&self, search: &mut Search, page: &mut [u8]) -> Result<Reply, CallFault>
        ensures kind { Kind search.old page.old (asks self.now) result search.new page.new }
        ensures performed { (l : Ledger) → Performed l search.old page.old (asks self.now) result search.new page.new };
}

impl<S: Space, O: Order> AnyCall for Call<'_, S, O> {
    ghost asks = { asked S.Plane.means S.Space.count S.Space.tied O.Order.cell_of_rank };

    fn make(&self, search: &mut Search, page: &mut [u8]) -> Result<Reply, CallFault> {
        perform(search, self, page)
    }
}

impl<C: AnyCall, D: AnyCall> AnyCall for Either<C, D> {
    ghost asks = { either C.asks D.asks };

    fn make(&self, search: &mut Search, page: &mut [u8]) -> Result<Reply, CallFault> {
        match self {
            Either::Left(call) => call.make(search, page),
            Either::Right(call) => call.make(search, page),
        }
    }
}
