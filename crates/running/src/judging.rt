ghost use Rattle.rolls.specs.Rolls.{surface};
ghost use Rattle.running.specs.Runs.{IsAllOf};
ghost use Rattle.running.specs.Verdicts.{Judged};
ghost use Rattle.running.specs.Written.{LineWritten};
ghost use Rattle.std.specs.Prelude.{ℕ, List};
ghost use Rattle.verdicts.specs.Verdicts.{verdict_line};

use crate::fault::RunFault;
use crate::output::write_line;
use crate::text::read_text;
use checking::check;
use planes::{Plane, Space};
use rules::Rule;
use std::alloc::{AllocError, Global};
use std::io::{Read, Write};
use verdicts::{Verdict, words_of};

// Writes the line of a verdict on a file; where the writer fails, a first part of it is written.
fn write_verdict<W: Write>(output: &mut W, name: &[u8], verdict: Verdict) -> Result<(), RunFault>
    ensures { LineWritten (verdict_line name.now verdict) (W.contents output.old) result (W.contents output.new) }
{
    write_line(output, name)?;
    write_line(output, words_of(verdict).as_str().as_bytes())
}

/// Reads the text of a pattern, all bytes of the input, checks it against a space and a rule, and writes
/// the line of its verdict after its name. `Read` comes where the input fails or there is no memory to
/// hold it, `Memory` where there is none to work the generations out, and in both cases nothing is written;
/// `Write` where the output takes no more of the line.
pub fn judge<S: Space, R: Read, W: Write>(
    heap: Global,
    space: &S,
    rule: &Rule,
    name: &[u8],
    input: &mut R,
    output: &mut W,
) -> Result<(), RunFault>
    ensures { (text : List ℕ) × IsAllOf (R.remaining input.old) text × Judged (surface (S.Plane.means space.now) (S.Space.count space.now) (S.Space.tied space.now)) rule.now name.now text (W.contents output.old) result (W.contents output.new) }
{
    let text = read_text(heap, input)?;
    let answer = check(heap, space, rule, text.as_slice());
    let Some(verdict) = Verdict::of(&answer) else {
        return Err(RunFault::Memory(AllocError));
    };
    write_verdict(output, name, verdict)
}
