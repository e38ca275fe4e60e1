ghost use Rattle.std.specs.Prelude.{◌≡◌, ℕ, ◌+◌, ◌≤◌, IfOk, vec_len};
ghost use Rattle.systems.specs.Spaces.{all_instances};
ghost use Rattle.systems.specs.Alike.{SameLooks};
ghost use Rattle.gathering.specs.Bounds.{EachNames, Names};
ghost use Rattle.gathering.specs.Rendering.{Classed, SameInstances, bare, kept};

use crate::ground::Ground;
use planes::Plane;
use std::alloc::{AllocError, Global};
use std::collections::HashSet;
use systems::Instance;

// The same instance with its neighbours in rising sequence, so that instances that ask the same are equal.
fn in_sequence(mut instance: Instance) -> Instance
    ensures looks { SameLooks instance result }
    ensures named { (n : ℕ) → Names n instance → Names n result }
{
    instance.neighbours.sort_unstable();
    instance
}

// The instances of every spot, those that ask the same kept once.
pub(crate) fn gathered<P: Plane>(
    heap: Global,
    ground: &Ground<'_, P>,
) -> Result<Vec<Instance>, AllocError>
    ensures named { IfOk result (λ is. EachNames (vec_len ground.now.classes.now.lowest + 1) is.items) }
    ensures few { IfOk result (λ is. vec_len is ≤ 40000) }
    ensures rendered { Classed ground.now.frame ground.now.classes.now → IfOk result (λ is. SameInstances is.items (all_instances (bare (P.Plane.means ground.now.plane.now)) (kept ground.now.classes.now))) }
{
    let mut instances = Vec::new(heap);
    let mut known = HashSet::new(heap);
    for number in 0..ground.spots() {
        let instance = in_sequence(ground.instance_at(ground.spot(number)));
        if known.insert(instance)? {
            instances.push(instance)?;
        }
    }
    Ok(instances)
}
