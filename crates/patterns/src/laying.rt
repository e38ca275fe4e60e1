ghost use Rattle.patterns.specs.Laid.{laid};
ghost use Rattle.rle.specs.Runs.{column_after, covers, is_on, row_after};
ghost use Rattle.std.specs.Prelude.{◌≡◌, ◌+◌, ◌<◌, ◌&&◌, ◌==◌, nat_le, nat_lt, min, IfOk};

use frames::Frame;
use rle::{Mark, Run};
use std::alloc::{AllocError, Global};

// Whether a run that starts at a place is an `o` run over a cell.
fn is_over(run: Run, x: usize, y: usize, column: usize, row: usize) -> bool
    ensures { result ≡ (is_on run.mark && (row == y && (nat_le x column && nat_lt column (x + run.count)))) }
{
    run.mark == Mark::On && row == y && x <= column && column - x < run.count
}

// The column and the row after a run that starts at a place. A place past the last number stays there:
// no cell lies that far out.
fn past(run: Run, x: usize, y: usize) -> (usize, usize)
    ensures column { result.0 ≡ min (column_after run.mark x run.count) usize.MAX }
    ensures row { result.1 ≡ min (row_after run.mark y run.count) usize.MAX }
{
    match run.mark {
        Mark::Off | Mark::On => (x.saturating_add(run.count), y),
        Mark::NextRow => (0, y.saturating_add(run.count)),
    }
}

// Whether an `o` run covers the cell at a column and a row, with the runs laid from the corner on.
fn covers(runs: &[Run], column: usize, row: usize) -> bool
    requires column { column < 1024 }
    requires row { row < 1024 }
    ensures { result ≡ covers 0 0 runs.now column row }
{
    let mut x = 0usize;
    let mut y = 0usize;
    for run in runs {
        if is_over(*run, x, y, column, row) {
            return true;
        }
        (x, y) = past(*run, x, y);
    }
    false
}

// The first generation of a box with a pattern's corner at its own, the rest of it off.
pub fn laid(heap: Global, frame: &Frame, runs: &[Run]) -> Result<Vec<bool>, AllocError>
    ensures { IfOk result (λ v. v.items ≡ laid frame.now runs.now) }
{
    // no From takes a u32 to a usize
    let width = frame.width() as usize;
    (0..frame.places() as usize)
        .map(|cell| covers(runs, cell % width, cell / width))
        .collect(heap)
}
