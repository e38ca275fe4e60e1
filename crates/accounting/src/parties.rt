ghost use Rattle.std.specs.Prelude.{◌≡◌, ℕ, ◌≤◌, MatchResult, length, map, vec_capacity, vec_len};
ghost use Rattle.rolls.specs.Rolls.{surface};
ghost use Rattle.accounting.specs.Accounts.{Accounted, EachJudged};
ghost use Rattle.accounting.specs.Rooms.{Holds};

use crate::report::{Report, Verdict};
use crate::room::{NoRoom, Room};
use calls::{AnyCall, Call, Opening, perform};
use checking::check;
use orders::Order;
use planes::{Plane, Space};
use rules::Rule;
use search::Search;
use std::alloc::Global;

// What the checker says of each text, put where there is room for it.
fn judge<S: Space>(
    heap: Global,
    space: &S,
    rule: &Rule,
    texts: &[&[u8]],
    mut verdicts: Vec<Verdict>,
) -> Vec<Verdict>
    requires none { vec_len verdicts ≡ 0 }
    requires room { length texts.now ≤ vec_capacity verdicts }
    ensures { EachJudged (surface (S.Plane.means space.now) (S.Space.count space.now) (S.Space.tied space.now)) rule.now (map (λ text. text.now) texts.now) result.items }
{
    for text in texts {
        verdicts.push_reserved(check(heap, space, rule, text));
    }
    verdicts
}

/// Opens a search, makes every call on it, hands every text to the checker, and answers what each of the two
/// answered: where memory is wanting for the opening or for a text, that is its answer. Refused is only what
/// the room does not hold; then nothing is done.
pub fn account<S: Space, O: Order, C: AnyCall>(
    room: Room,
    opening: Opening<'_, S, O>,
    calls: &[C],
    page: &mut [u8],
    texts: &[&[u8]],
) -> Result<Report, NoRoom>
    ensures { MatchResult result
        (λ report. Accounted
        (surface (S.Plane.means opening.entry.space.now) (S.Space.count opening.entry.space.now) (S.Space.tied opening.entry.space.now))
        opening.entry.rule.now
        (O.Order.cell_of_rank opening.entry.order.now (S.Plane.means opening.entry.space.now).frame)
        (map C.AnyCall.asks calls.now)
        (map (λ text. text.now) texts.now)
        report page.old page.new)
        (λ _. (Holds room (length calls.now) (length texts.now) → ⊥) × (page.new ≡ page.old)) }
{
    if !room.holds(calls.len(), texts.len()) {
        return Err(NoRoom);
    }
    let Room {
        mut answers,
        verdicts,
    } = room;
    let verdicts = judge(opening.heap, opening.space, opening.rule, texts, verdicts);
    let mut search = Search::blank();
    let opened = perform(&mut search, &Call::Open(opening), page);
    for call in calls {
        answers.push_reserved(call.make(&mut search, page));
    }
    Ok(Report {
        opened,
        answers,
        verdicts,
    })
}
