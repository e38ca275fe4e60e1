ghost use Rattle.running.specs.Runs.{Asked, IsAllOf};
ghost use Rattle.std.specs.Prelude.{ℕ, List};

use crate::fault::RunFault;
use crate::output::write_line;
use crate::text::read_text;
use printing::refusal_of;
use problem::{Problem, read_problem};
use std::alloc::Global;
use std::io::{Read, Write};

/// Reads a problem, all bytes of the input. Where it is refused, the line of its refusal is written, and
/// there is none. `Read` comes where the input fails or there is no memory to hold it, and then nothing
/// is written; `Write` where the output takes no more of the line.
pub fn ask<R: Read, W: Write>(
    heap: Global,
    input: &mut R,
    output: &mut W,
) -> Result<Option<Problem>, RunFault>
    ensures { (text : List ℕ) × IsAllOf (R.remaining input.old) text × Asked text (W.contents output.old) result (W.contents output.new) }
{
    let text = read_text(heap, input)?;
    match read_problem(text.as_slice()) {
        Ok(problem) => Ok(Some(problem)),
        Err(fault) => {
            write_line(output, refusal_of(&fault).as_str().as_bytes())?;
            Ok(None)
        }
    }
}
