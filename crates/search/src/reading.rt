ghost use Rattle.std.specs.Prelude.{◌≡◌, ℕ, ◌+◌, ◌<◌, ◌≤◌, false, slice_index_or};
ghost use Rattle.frames.specs.Frames.{cells};
ghost use Rattle.search.specs.Calls.{cell_in};
ghost use Rattle.search.specs.Opening.{found_cells};

use crate::fault::CellFault;
use crate::record::Record;
use codes::Value;
use frames::Cell;

impl Record {
    // Whether a cell is on.
    pub(crate) fn is_on(&self, cell: usize) -> bool
        requires { cell < cells self.now.frame }
        ensures { result ≡ slice_index_or (found_cells self.now) cell false }
    {
        match self.board.classes().class_of(cell) {
            Some(class) => matches!(self.board.value(class), Value::On),
            None => false,
        }
    }

    // Whether the cell of the box is on in the find.
    pub(crate) fn cell(&self, cell: Cell) -> Result<bool, CellFault>
        ensures { result ≡ cell_in self.now.frame (found_cells self.now) cell }
    {
        let number = self.frame.number_of(cell).ok_or(CellFault::NoCell)?;
        // no From takes a u32 to a usize
        Ok(self.is_on(number as usize))
    }
}
