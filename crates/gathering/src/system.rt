ghost use Rattle.std.specs.Prelude.{◌≡◌, ℕ, ◌+◌, ◌<◌, ◌≤◌, vec_len};
ghost use Rattle.gathering.specs.Bounds.{EachNames, EachUnder};
ghost use Rattle.gathering.specs.Rendering.{EachNoted};

use classes::Classes;
use systems::Instance;

// The classes of a space, its instances over them, equal ones kept once, and for each class the
// instances that touch it. Nothing of it changes once it is made, and it keeps its classes itself, so
// that no instances are ever read over the classes of another space.
#[derive(Drop)]
pub struct System {
    pub(crate) classes: Classes,
    pub(crate) instances: Vec<Instance>,
    // by class the numbers of the instances that touch it; the class past the last is nothing
    pub(crate) touching: Vec<Vec<u16>>,
    ghost few: { vec_len touching ≤ 4096 },
    ghost classed: { vec_len touching ≡ vec_len classes.lowest },
    ghost named: { EachNames (vec_len touching + 1) instances.items },
    ghost within: { EachUnder (vec_len instances) touching.items },
    ghost noted: { EachNoted instances.items touching.items },
}
