ghost use Rattle.keeping.specs.Asked.{instance_at, instances};
ghost use Rattle.std.specs.Prelude.{◌≡◌, ◌<◌, ◌≤◌};

use frames::Frame;

// How far out of the box instances reach.
const REACH: u32 = 9;

// Where an instance stands: its generation, row and column.
#[derive(Clone, Copy, PartialEq, Eq, Debug)]
pub struct InstanceAt {
    pub t: u32,
    pub y: i32,
    pub x: i32,
}

// Where a tie stands: its row and the number of its cell.
#[derive(Clone, Copy, PartialEq, Eq, Debug)]
pub struct TieAt {
    pub row: u32,
    pub cell: u32,
}

// How many instances a frame has.
pub(crate) fn instances(frame: &Frame) -> u32
    ensures value { result ≡ instances frame.now }
    ensures bound { result ≤ 40000 }
{
    let columns = frame.width() + 2 * REACH;
    let rows = frame.height() + 2 * REACH;
    columns * rows * frame.period()
}

// The instance of a number, by generation, row and column.
pub(crate) fn instance_at(frame: &Frame, number: u32) -> InstanceAt
    ensures { result ≡ instance_at frame.now number }
{
    let columns = frame.width() + 2 * REACH;
    let rows = frame.height() + 2 * REACH;
    // both are shown to fit, so that nothing can fail here
    InstanceAt {
        t: number / columns / rows,
        y: (number / columns % rows) as i32 - REACH as i32,
        x: (number % columns) as i32 - REACH as i32,
    }
}
