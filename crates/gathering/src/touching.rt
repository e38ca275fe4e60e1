ghost use Rattle.std.specs.Prelude.{◌≡◌, ℕ, ◌+◌, ◌<◌, ◌≤◌, length, IfOk, vec_len};
ghost use Rattle.gathering.specs.Bounds.{Under, EachUnder};
ghost use Rattle.gathering.specs.Rendering.{Noted, names, EachNoted};

use std::alloc::{AllocError, Global};
use systems::Instance;

// Whether an instance names a class.
fn touches(instance: &Instance, class: u16) -> bool
    ensures { result ≡ names class instance.now }
{
    instance.centre == class || instance.successor == class || instance.neighbours.contains(&class)
}

// The numbers of the instances that touch one class.
fn touching(heap: Global, instances: &[Instance], class: u16) -> Result<Vec<u16>, AllocError>
    requires { length instances.now ≤ 40000 }
    ensures within { IfOk result (λ numbers. Under (length instances.now) numbers.items) }
    ensures noted { IfOk result (λ numbers. Noted instances.now class numbers.items) }
{
    // neither `zip` nor `filter`, `map` and `collect`: no proof closed that each number they give is
    // that of an instance
    let mut numbers = Vec::new(heap);
    for (number, instance) in instances.iter().enumerate() {
        if touches(instance, class) {
            // shown to fit, so that nothing can fail
            numbers.push(number as u16)?;
        }
    }
    Ok(numbers)
}

// For each of so many classes the numbers of the instances that touch it.
pub(crate) fn touching_each(
    heap: Global,
    instances: &[Instance],
    classes: usize,
) -> Result<Vec<Vec<u16>>, AllocError>
    requires instances { length instances.now ≤ 40000 }
    requires classes { classes ≤ 4096 }
    ensures within { IfOk result (λ each. EachUnder (length instances.now) each.items) }
    ensures noted { IfOk result (λ each. EachNoted instances.now each.items) }
    ensures len { IfOk result (λ each. vec_len each ≡ classes) }
{
    let mut each = Vec::new(heap);
    // shown to fit, so that nothing can fail here
    for class in 0..classes as u16 {
        each.push(touching(heap, instances, class)?)?;
    }
    Ok(each)
}
