ghost use Rattle.std.specs.Prelude.{◌≡◌, ◌*◌, ◌≤◌, pos, negsuc, ◌≤ℤ◌};

// One cell of the box: a column, a row and a generation, each from 0.
#[derive(Clone, Copy, PartialEq, Eq, Debug)]
pub struct Cell {
    pub x: u32,
    pub y: u32,
    pub t: u32,
}

// The box: width and height in cells, the period in generations, and the drift after one period.
// Its limits are part of the type, so nobody who holds a frame has to ask again.
#[derive(Clone, Copy)]
pub struct Frame {
    pub(crate) width: u32,
    pub(crate) height: u32,
    pub(crate) period: u32,
    pub(crate) dx: i32,
    pub(crate) dy: i32,
    ghost wide: { 1 ≤ width },
    ghost narrow: { width ≤ 32 },
    ghost tall: { 1 ≤ height },
    ghost low: { height ≤ 32 },
    ghost lasting: { 1 ≤ period },
    ghost short: { period ≤ 16 },
    ghost small: { width * height * period ≤ 4096 },
    ghost left: { negsuc 7 ≤ℤ dx },
    ghost right: { dx ≤ℤ pos 8 },
    ghost up: { negsuc 7 ≤ℤ dy },
    ghost down: { dy ≤ℤ pos 8 },
}

impl Frame {
    pub fn width(&self) -> u32
        ensures { result ≡ self.now.width }
    {
        self.width
    }

    pub fn height(&self) -> u32
        ensures { result ≡ self.now.height }
    {
        self.height
    }

    pub fn period(&self) -> u32
        ensures { result ≡ self.now.period }
    {
        self.period
    }

    pub fn dx(&self) -> i32
        ensures { result ≡ self.now.dx }
    {
        self.dx
    }

    pub fn dy(&self) -> i32
        ensures { result ≡ self.now.dy }
    {
        self.dy
    }
}
