ghost use Rattle.printing.specs.Printed.{Printed, found_line, refused_line};
ghost use Rattle.std.specs.Prelude.{◌≡◌};

use arrayvec::ArrayString;
use itoa::Buffer;
use pages::{PageFault, write_text};
use problem::ProblemFault;

// Writes the line `found N` into the page from `at` on.
pub fn write_found(page: &mut [u8], at: usize, tally: u64) -> Result<usize, PageFault>
    ensures { Printed page.old at (found_line tally) page.new result }
{
    // the words and twenty digits
    let mut line = ArrayString::<27>::new();
    line.push_str("found ");
    line.push_str(Buffer::new().format(tally));
    line.push_str("\n");
    write_text(page, at, line.as_str().as_bytes())
}

/// The line `refused N line L`, with its newline.
pub fn refusal_of(fault: &ProblemFault) -> ArrayString<35>
    ensures { result.bytes ≡ refused_line fault.now }
{
    // the words and twice ten digits
    let mut line = ArrayString::new();
    line.push_str("refused ");
    line.push_str(Buffer::new().format(fault.cause.number()));
    line.push_str(" line ");
    line.push_str(Buffer::new().format(fault.line));
    line.push_str("\n");
    line
}

// Writes the line `refused N line L` into the page from `at` on.
pub fn write_refused(page: &mut [u8], at: usize, fault: &ProblemFault) -> Result<usize, PageFault>
    ensures { Printed page.old at (refused_line fault.now) page.new result }
{
    write_text(page, at, refusal_of(fault).as_str().as_bytes())
}
