ghost use Rattle.running.specs.Written.{AppendsPart, LineWritten};
ghost use Rattle.std.specs.Io.KnownBytes.{Appends};
ghost use Rattle.std.specs.Prelude.{OnErr, OnOk};

use crate::fault::RunFault;
use std::io::{self, ErrorKind, Write};

// Has a writer take all bytes; where the writer fails, a first part of them is written. One that is interrupted is
// asked again.
fn write_whole<W: Write>(output: &mut W, bytes: &[u8]) -> io::Result<()>
    ensures whole { OnOk result (Appends (W.contents output.old) (W.contents output.new) bytes.now) }
    ensures part { OnErr result (AppendsPart (W.contents output.old) (W.contents output.new) bytes.now) }
{
    let mut rest = bytes;
    for _ in 0..u64::MAX {
        if rest.is_empty() {
            return Ok(());
        }
        match output.write(rest) {
            Ok(0) => return Err(ErrorKind::WriteZero.into()),
            Ok(n) => rest = &rest[n..],
            Err(fault) if fault.kind() == ErrorKind::Interrupted => {}
            Err(fault) => return Err(fault),
        }
    }
    Err(ErrorKind::Interrupted.into())
}

// Writes all bytes and flushes the writer; where it fails, a first part of them is written.
pub(crate) fn write_out<W: Write>(output: &mut W, bytes: &[u8]) -> io::Result<()>
    ensures whole { OnOk result (Appends (W.contents output.old) (W.contents output.new) bytes.now) }
    ensures part { OnErr result (AppendsPart (W.contents output.old) (W.contents output.new) bytes.now) }
{
    write_whole(output, bytes)?;
    output.flush()
}

// Writes a line.
pub(crate) fn write_line<W: Write>(output: &mut W, line: &[u8]) -> Result<(), RunFault>
    ensures { LineWritten line.now (W.contents output.old) result (W.contents output.new) }
{
    write_out(output, line).map_err(RunFault::Write)
}
