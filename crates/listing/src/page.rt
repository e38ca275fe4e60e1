ghost use Rattle.std.specs.Prelude.{◌≡◌, ℕ, ◌<◌, ◌≤◌, List, Bool, false, Some, [], ◌∷◌, length, replicate, IfOk, IfErr, OnOk, OnErr, is_none};
ghost use Rattle.rules.specs.declared.rule.Rule.{Rule};
ghost use Rattle.rolls.specs.Rolls.{Surface};
ghost use Rattle.pages.specs.declared.fault.PageFault.TheVariants.{Short};
ghost use Rattle.printing.specs.Printed.{found_line};
ghost use Rattle.search.specs.Calls.{left_in};
ghost use Rattle.search.specs.declared.fault.WriteFault.TheVariants.{Page};
ghost use Rattle.calls.specs.Histories.{Keeps, Stands};
ghost use Rattle.calls.specs.Ledgers.{Book, Granted, Ledger, tally_of, text_in};
ghost use Rattle.calls.specs.declared.fault.CallFault.TheVariants.{Write};
ghost use Rattle.listing.specs.declared.fault.ListFault.TheVariants as listing;
ghost use Rattle.listing.specs.Handing.{BegunBy, Handed, HandedBy, RanBy, Settled, TextHanded, WentOn, text_room};

use crate::fault::ListFault;
use crate::sink::{Closed, Sink};
use calls::{Call, Reply, perform};
use printing::write_found;
use search::{Answer, Search};

/// How many bytes a page has that has room for every text.
pub const PAGE_SIZE: usize = 2_048;

/// A page of zeros that has room for every text.
pub fn blank_page() -> [u8; PAGE_SIZE]
    ensures zeros { result ≡ replicate (length result) 0 }
    ensures room { text_room ≤ length result }
{
    [0; PAGE_SIZE]
}

// How many steps are taken before the sink may pass on what it holds.
const STRIDE: u32 = 20_000;

// The steps that are left before the next rest, which is taken when there are none.
fn rested<S: Sink>(left: u32, taken: u32, sink: &mut S) -> Result<u32, Closed>
    requires { Granted left }
    ensures granted { IfOk result Granted }
    ensures rested { OnOk result (Handed S.Sink.takes S.Sink.rests sink.old [] sink.new) }
    ensures failed { OnErr result (S.Sink.fails sink.old [] sink.new) }
{
    match left.saturating_sub(taken) {
        0 => {
            sink.rest()?;
            Ok(STRIDE)
        }
        left => Ok(left),
    }
}

// Hands the find on.
fn hand_find<S: Sink>(search: &mut Search, page: &mut [u8], sink: &mut S) -> Result<(), ListFault>
    ensures same { search.new ≡ search.old }
    ensures sink { HandedBy S.Sink.takes S.Sink.rests S.Sink.fails sink.old result sink.new }
    ensures handed { (s : Surface) (rule : Rule) (cell : ℕ → ℕ) (b : Book) (f : List Bool) → Keeps s rule cell b search.old → b.find ≡ Some f →
        TextHanded S.Sink.takes S.Sink.rests S.Sink.fails (listing.Call (Write (Page Short))) (text_in s rule f) page.old sink.old result page.new sink.new }
{
    let write: Call = Call::Write(0);
    let Reply::Wrote(end) = perform(search, &write, page)? else {
        unreachable!()
    };
    sink.take(&page[..end])?;
    Ok(())
}

// Hands the last line on: how many finds there were.
fn hand_foot<S: Sink>(search: &mut Search, page: &mut [u8], sink: &mut S) -> Result<(), ListFault>
    ensures same { search.new ≡ search.old }
    ensures sink { HandedBy S.Sink.takes S.Sink.rests S.Sink.fails sink.old result sink.new }
    ensures handed { (s : Surface) (rule : Rule) (cell : ℕ → ℕ) (b : Book) → Keeps s rule cell b search.old →
        TextHanded S.Sink.takes S.Sink.rests S.Sink.fails (listing.Foot Short) (found_line (tally_of b.told)) page.old sink.old result page.new sink.new }
    ensures settled { (s : Surface) (rule : Rule) (cell : ℕ → ℕ) (b : Book) → Keeps s rule cell b search.old →
        OnOk result (Settled S.Sink.takes S.Sink.rests sink.old (found_line (tally_of b.told) ∷ []) sink.new) }
{
    let tally: Call = Call::Tally;
    let Reply::Counted(finds) = perform(search, &tally, page)? else {
        unreachable!()
    };
    let after = write_found(page, 0, finds)?;
    sink.take(&page[..after])?;
    sink.rest()?;
    Ok(())
}

// One go, and what it told is handed on; answers the steps that are left before the next rest, and
// nothing once the page is whole.
fn go_on<S: Sink>(
    search: &mut Search,
    page: &mut [u8],
    left: u32,
    sink: &mut S,
) -> Result<Option<u32>, ListFault>
    requires { Granted left }
    ensures granted { (n : ℕ) → result ≡ Ok (Some n) → Granted n }
    ensures fewer { IfOk result (λ next. is_none next ≡ false → left_in search.new < left_in search.old) }
    ensures sink { HandedBy S.Sink.takes S.Sink.rests S.Sink.fails sink.old result sink.new }
    ensures went { (l : Ledger) (p : List ℕ) (from : S) → BegunBy S.Sink.takes S.Sink.rests l p from search.old page.old sink.old →
        WentOn S.Sink.takes S.Sink.rests S.Sink.fails l p from result search.new page.new sink.new }
{
    let go: Call = Call::Go(left);
    let Reply::Went(answer) = perform(search, &go, page)? else {
        unreachable!()
    };
    match answer {
        Answer::Found(_) => hand_find(search, page, sink)?,
        Answer::Done(_) => {
            hand_foot(search, page, sink)?;
            return Ok(None);
        }
        Answer::Paused(_) => {}
    }
    Ok(Some(rested(left, answer.steps(), sink)?))
}

/// Runs a search to its end: every find is handed to the sink as it is told, then the last line. From
/// the opening on these are all that the space and the rule allow. Where the sink fails, what it was
/// handed is a first part of that. A blank search is refused with 12. Where the page has no room for a
/// text, that is refused with 15; one of `PAGE_SIZE` bytes has room for each.
pub fn list_page<S: Sink>(
    search: &mut Search,
    page: &mut [u8],
    sink: &mut S,
) -> Result<(), ListFault>
    ensures sink { HandedBy S.Sink.takes S.Sink.rests S.Sink.fails sink.old result sink.new }
    ensures ran { (l : Ledger) → Stands l search.old →
        RanBy S.Sink.takes S.Sink.rests S.Sink.fails l page.old sink.old result search.new page.new sink.new }
    ensures room { (s : Surface) (rule : Rule) (cell : ℕ → ℕ) (b : Book) → Keeps s rule cell b search.old → text_room ≤ length page.old →
        IfErr result (λ fault. fault ≡ listing.Closed) }
{
    let mut left = STRIDE;
    // it ends, since each go that is not the last leaves fewer
    while let Some(next) = go_on(search, page, left, sink)? {
        left = next;
    }
    Ok(())
}
