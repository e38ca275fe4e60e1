ghost use Rattle.rolls.specs.Rolls.{surface};
ghost use Rattle.running.specs.Pages.{PageWritten};
ghost use Rattle.running.specs.Runs.{IsAllOf, Ran};
ghost use Rattle.std.specs.Prelude.{ℕ, List};

use crate::asking::ask;
use crate::fault::RunFault;
use crate::printer::Printer;
use crate::spaces::Spaces;
use calls::Opening;
use listing::{ListFault, PAGE_SIZE, Sink, list_space};
use orders::Order;
use planes::{Plane, Space};
use problem::Problem;
use std::alloc::Global;
use std::io::{Read, Write};

/// Lists a space to a writer: its page is written, and nothing else. Over 8 rows of ties are refused with
/// 11, and memory may be wanting at the opening; then nothing is written. Where the output takes no more,
/// a first part of the page is written.
pub fn list_to<S: Space, O: Order, W: Write>(
    opening: Opening<'_, S, O>,
    output: &mut W,
) -> Result<(), ListFault>
    ensures { let s = surface (S.Plane.means opening.entry.space.now) (S.Space.count opening.entry.space.now) (S.Space.tied opening.entry.space.now) in PageWritten s opening.entry.rule.now (O.Order.cell_of_rank opening.entry.order.now s.frame) (W.contents output.old) result (W.contents output.new) }
{
    let mut page = [0u8; PAGE_SIZE];
    let mut held = Vec::new(opening.heap);
    let mut printer = Printer::new(output, &mut held);
    list_space(opening, &mut page, &mut printer)?;
    printer.rest()?;
    Ok(())
}

/// Reads a problem, all bytes of the input, and writes the page of the space that is made of it, or the
/// line of its refusal, and nothing else. Where the output takes no more, a first part of it is written;
/// where the input fails, memory is wanting or the space has over 8 rows of ties, nothing is.
pub fn run<X: Spaces, R: Read, W: Write>(
    heap: Global,
    spaces: &X,
    input: &mut R,
    output: &mut W,
) -> Result<(), RunFault>
    ensures { (text : List ℕ) × IsAllOf (R.remaining input.old) text × Ran (X.made spaces.now) text (W.contents output.old) result (W.contents output.new) }
{
    let Some(problem) = ask(heap, input, output)? else {
        return Ok(());
    };
    let Problem { rule, space, order } = problem;
    let space = spaces.space(space);
    let opening = Opening {
        heap,
        space: &space,
        order: &order,
        rule: &rule,
    };
    list_to(opening, output)?;
    Ok(())
}
