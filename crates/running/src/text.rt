ghost use Rattle.running.specs.Written.{IsReading};
ghost use Rattle.std.specs.Prelude.{◌≡◌, IfErr, IfOk, IfSome, take};

use crate::fault::RunFault;
use std::alloc::Global;
use std::io::{self, Read};

// One byte more than a problem or a pattern's text may have, so that a longer one is seen to be too long.
const READ_LIMIT: u64 = 65_537;

// The bytes of an input, or so many of them that it is seen to be too long.
fn read_bytes<R: Read>(heap: Global, input: &mut R) -> io::Result<Vec<u8>>
    ensures { IfOk result (λ text. IfSome (R.remaining input.old) (λ all. text.items ≡ take 65537 all)) }
{
    let mut text = Vec::new(heap);
    input.take(READ_LIMIT).read_to_end(&mut text)?;
    Ok(text)
}

// The same; a fault is one of reading.
pub(crate) fn read_text<R: Read>(heap: Global, input: &mut R) -> Result<Vec<u8>, RunFault>
    ensures text { IfOk result (λ text. IfSome (R.remaining input.old) (λ all. text.items ≡ take 65537 all)) }
    ensures fault { IfErr result IsReading }
{
    read_bytes(heap, input).map_err(RunFault::Read)
}
