ghost use Rattle.keeping.specs.Asked.{broken_tie, undone};
ghost use Rattle.rolls.specs.Rolls.{at, surface};
ghost use Rattle.std.specs.Prelude.{◌≡◌};

use crate::places::TieAt;
use planes::{Plane, Space, Tie};

// Whether a cell of a filling is on; off where there is no such cell.
fn is_on(cells: &[bool], cell: u32) -> bool
    ensures { result ≡ at cells.now cell }
{
    // no From takes a u32 to a usize
    cells.get(cell as usize).copied().unwrap_or(false)
}

// Whether a tie of a cell does not hold.
fn undone(cells: &[bool], cell: u32, tie: Tie) -> bool
    ensures { result ≡ undone cells.now cell tie }
{
    match tie {
        Tie::Free => false,
        Tie::Off => is_on(cells, cell),
        Tie::On => !is_on(cells, cell),
        Tie::Same(other) => is_on(cells, cell) != is_on(cells, other),
    }
}

// The first tie that does not hold in a filling, by row and cell; none where all hold.
pub fn broken_tie<S: Space>(space: &S, cells: &[bool]) -> Option<TieAt>
    ensures { result ≡ broken_tie (surface (S.Plane.means space.now) (S.Space.count space.now) (S.Space.tied space.now)) cells.now }
{
    let size = space.frame().cells();
    for number in 0..space.rows() * size {
        let at = TieAt {
            row: number / size,
            cell: number % size,
        };
        if undone(cells, at.cell, space.tie(at.row, at.cell)) {
            return Some(at);
        }
    }
    None
}
