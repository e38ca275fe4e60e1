ghost use Rattle.keeping.specs.Worked.{worked_out};
ghost use Rattle.rolls.specs.Rolls.{surface};
ghost use Rattle.std.specs.Prelude.{◌≡◌, IfOk};

use crate::filled::Filled;
use planes::{Plane, Space};
use rules::Rule;
use std::alloc::{AllocError, Global};

// A first generation and all that follow it in the box by the rule.
pub fn worked_out<S: Space>(
    heap: Global,
    space: &S,
    rule: &Rule,
    first: &[bool],
) -> Result<Vec<bool>, AllocError>
    ensures { IfOk result (λ v. v.items ≡ worked_out (surface (S.Plane.means space.now) (S.Space.count space.now) (S.Space.tied space.now)) rule.now first.now) }
{
    let frame = space.frame();
    let mut cells = Vec::from_slice(heap, first)?;
    for number in 0..frame.places() * (frame.period() - 1) {
        let filled = Filled {
            space,
            rule,
            cells: cells.as_slice(),
        };
        let on = filled.next_of(number);
        cells.push(on)?;
    }
    Ok(cells)
}
