ghost use Rattle.keeping.specs.Asked.{broken_instance};
ghost use Rattle.rolls.specs.Rolls.{surface};
ghost use Rattle.std.specs.Prelude.{◌≡◌};

use crate::filled::Filled;
use crate::places::{InstanceAt, instance_at, instances};
use planes::{Plane, Space};
use rules::Rule;

// The first instance that does not hold in a filling, by generation, row and column; none where all
// hold.
pub fn broken_instance<S: Space>(space: &S, rule: &Rule, cells: &[bool]) -> Option<InstanceAt>
    ensures { result ≡ broken_instance (surface (S.Plane.means space.now) (S.Space.count space.now) (S.Space.tied space.now)) rule.now cells.now }
{
    let filled = Filled { space, rule, cells };
    let frame = space.frame();
    for number in 0..instances(&frame) {
        let at = instance_at(&frame, number);
        if filled.fails(at) {
            return Some(at);
        }
    }
    None
}
