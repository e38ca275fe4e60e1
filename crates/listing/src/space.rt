ghost use Rattle.std.specs.Prelude.{◌≡◌, ◌≤◌, length, IfErr};
ghost use Rattle.rolls.specs.Rolls.{surface};
ghost use Rattle.listing.specs.Handing.{ClosedOrOpening, SpaceEnded, text_room};

use crate::fault::ListFault;
use crate::page::list_page;
use crate::sink::Sink;
use calls::{Call, Opening, perform};
use orders::Order;
use planes::Space;
use search::Search;

/// Lists a space: opens a search on it and runs it to its end. Over 8 rows of ties are refused with 11,
/// and memory may be wanting at the opening, before anything is handed on; from then on all is as
/// `list_page` says. The search is let go.
pub fn list_space<P: Space, O: Order, S: Sink>(
    opening: Opening<'_, P, O>,
    page: &mut [u8],
    sink: &mut S,
) -> Result<(), ListFault>
    ensures ended { SpaceEnded S.Sink.takes S.Sink.rests S.Sink.fails
        (surface (P.Plane.means opening.entry.space.now) (P.Space.count opening.entry.space.now) (P.Space.tied opening.entry.space.now))
        opening.entry.rule.now (O.Order.cell_of_rank opening.entry.order.now (P.Plane.means opening.entry.space.now).frame)
        page.old sink.old result page.new sink.new }
    ensures room { text_room ≤ length page.old → IfErr result ClosedOrOpening }
{
    let mut search = Search::blank();
    perform(&mut search, &Call::Open(opening), page)?;
    list_page(&mut search, page, sink)
}
