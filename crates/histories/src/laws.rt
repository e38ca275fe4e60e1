ghost use Rattle.frames.specs.Frames.{cells};
ghost use Rattle.histories.specs.Examples.{SearchesWorked};
ghost use Rattle.histories.specs.Laws.{GoLaws, RunsTell};
ghost use Rattle.histories.specs.Listed.{HistoriesListed};
ghost use Rattle.rolls.specs.Laws.{Orders};

use frames::Frame;
use orders::Order;

// From any state a search tells exactly what is to come, in sequence, each once, in few steps.
pub fn runs_stand()
    ensures { RunsTell }
{}

// A call of go has one answer, every state has a move, and the call as it is computed is the call.
pub fn goes_stand()
    ensures { GoLaws }
{}

// Over every history of calls from an opening the finds told are the first of the roll, in
// dictionary order, each once; done is answered only when all are told.
pub fn histories_stand()
    ensures { HistoriesListed }
{}

// The worked examples of searches stand.
pub fn worked_searches_stand()
    ensures { SearchesWorked }
{}

// Any order of cells is one, as the law of histories asks for.
pub fn order_stands<O: Order>(order: &O, frame: &Frame)
    ensures { Orders (cells frame.now) (O.Order.cell_of_rank order.now frame.now) (O.Order.rank_of_cell order.now frame.now) }
{}
