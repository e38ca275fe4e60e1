ghost use Rattle.std.specs.Prelude.{◌+◌, ◌≤◌, length};
ghost use Rattle.pages.specs.Pages.{Placed};
ghost use Rattle.rle.specs.Texts.{run_text, body_text};
ghost use Rattle.texts.specs.Marks.{left};

use crate::mark::Runs;
use pages::{put, put_number};
use rle::Run;

// Writes a run from a place on, its count, unless it is 1, and its letter, and answers the place after it.
fn put_run(tail: &mut [u8], at: usize, run: Run) -> usize
    requires { at + length (run_text run) ≤ length tail.old }
    ensures { Placed tail.old at (run_text run) tail.new result }
{
    let after_count = if run.count == 1 {
        at
    } else {
        // `as`: no `From` takes a `usize` to a `u64`
        put_number(tail, at, run.count as u64)
    };
    put(tail, after_count, &[u8::from(run.mark)])
}

// Writes the runs and the end at the front of the tail, and answers their length.
pub(crate) fn write_body(tail: &mut [u8], runs: Runs) -> usize
    requires { length (body_text (left runs)) ≤ length tail.old }
    ensures { Placed tail.old 0 (body_text (left runs.entry)) tail.new result }
{
    let mut end = 0;
    for run in runs {
        end = put_run(tail, end, run);
    }
    put(tail, end, b"!\n")
}
