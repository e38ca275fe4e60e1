ghost use Rattle.std.specs.Prelude.{◌≡◌, ℕ, ◌+◌, ◌*◌, ◌<◌, ◌≤◌, ◌&&◌, T, pos, negsuc, ◌≤ℤ◌, IfSome, if◌then◌else◌, Some, None, nat_lt};
ghost use Rattle.frames.specs.Frames.{shown, built, cells, number_at, cell_at, slow};

use crate::fault::FrameFault;
use crate::frame::{Cell, Frame};

// Whether a drift keeps its limits.
fn slow_enough(d: i32) -> bool
    ensures test { result ≡ slow d }
    ensures above { T result → negsuc 7 ≤ℤ d }
    ensures below { T result → d ≤ℤ pos 8 }
{
    (-8..=8).contains(&d)
}

impl Frame {
    // The only door to a frame: the limits are tried in the order of their numbers.
    pub fn new(width: u32, height: u32, period: u32, dx: i32, dy: i32) -> Result<Frame, FrameFault>
        ensures { shown result ≡ built width height period dx dy }
    {
        if !(1..=32).contains(&width) || !(1..=32).contains(&height) {
            return Err(FrameFault::Size);
        }
        if !(1..=16).contains(&period) {
            return Err(FrameFault::Period);
        }
        if width * height * period > 4096 {
            return Err(FrameFault::Cells);
        }
        if !slow_enough(dx) || !slow_enough(dy) {
            return Err(FrameFault::Drift);
        }
        Ok(Frame {
            width,
            height,
            period,
            dx,
            dy,
        })
    }

    // How many cells there are, in all generations.
    pub fn cells(&self) -> u32
        ensures { result ≡ cells self.now }
    {
        self.places() * self.period
    }

    // How many places the box has: the cells of one generation.
    pub fn places(&self) -> u32
        ensures value { result ≡ self.now.width * self.now.height }
        ensures bound { result ≤ 1024 }
    {
        self.width * self.height
    }

    // The number of a cell, by generation, row and column; none where it lies outside the box.
    pub fn number_of(&self, cell: Cell) -> Option<u32>
        ensures value { result ≡ number_at self.now cell }
        ensures bound { IfSome result (λ n. n < cells self.now) }
        ensures back { IfSome result (λ n. cell_at self.now n ≡ cell) }
    {
        if cell.x >= self.width || cell.y >= self.height || cell.t >= self.period {
            return None;
        }
        Some((cell.t * self.height + cell.y) * self.width + cell.x)
    }

    // The cell of a number; none where there is no such cell.
    pub fn cell_at(&self, number: u32) -> Option<Cell>
        ensures inside { IfSome result (λ c. (c.x < self.now.width) × (c.y < self.now.height) × (c.t < self.now.period)) }
        ensures back { IfSome result (λ c. number_at self.now c ≡ Some number) }
        ensures value { result ≡ (if nat_lt number (cells self.now) then Some (cell_at self.now number) else None) }
    {
        if number >= self.cells() {
            return None;
        }
        let row = number / self.width;
        Some(Cell {
            x: number % self.width,
            y: row % self.height,
            t: row / self.height,
        })
    }
}
