ghost use Rattle.std.specs.Prelude.{◌≡◌, ℕ, ◌+◌, ◌<◌, ◌≤◌, length, min, take, drop, MatchOption, vec_len, vec_capacity, slice_index, slice_index_or};
ghost use Rattle.codes.specs.declared.value.Value.TheVariants.{Off, Unknown};
ghost use Rattle.settling.specs.Counts.{unknowns};

use codes::Value;

// What is known of each class, in the sequence in which it was set.
#[derive(Drop)]
pub(crate) struct Known {
    // by class; nothing, the class past the last, is always off
    pub(crate) values: Vec<Value>,
    // the classes that were set, in sequence
    pub(crate) trail: Vec<u16>,
    // how far the trail is settled: an instance that touches no class past this forces nothing
    pub(crate) settled: usize,
    ghost nothing: { (k : ℕ) → k + 1 ≡ vec_len values → slice_index_or values.items k Unknown ≡ Off },
    ghost trailed: { (k : ℕ) → k < length trail.items → slice_index trail.items k + 1 < vec_len values },
    ghost room: { vec_len trail + unknowns values.items ≤ vec_len values },
    ghost reserved: { vec_len values ≤ vec_capacity trail },
    ghost reached: { settled ≤ vec_len trail },
}

impl Known {
    ghost use Rattle.systems.specs.Trails.{hold};
    ghost use Rattle.settling.specs.Knowing.{Grown, held, put_back};

    // Sets an unknown class and notes it on the trail; a known one stays as it is.
    pub(crate) fn set(&mut self, class: u16, on: bool)
        requires { class < vec_len self.old.values }
        ensures grown { Grown self.old self.new }
        ensures set { held self.new ≡ hold class on (held self.old) }
    {
        let value = &mut self.values[usize::from(class)];
        if *value == Value::Unknown {
            *value = Value::from(on);
            self.trail.push_reserved(class);
        }
    }

    // The first class of the trail that is not settled.
    pub(crate) fn unsettled(&self) -> Option<u16>
        ensures { MatchOption result (vec_len self.now.trail ≤ self.now.settled) (λ class. (class ≡ slice_index self.now.trail.items self.now.settled) × (self.now.settled < vec_len self.now.trail)) }
    {
        self.trail.get(self.settled).copied()
    }

    // Puts back every class that was set since the trail had the length `mark`.
    pub(crate) fn undo(&mut self, mark: usize)
        ensures sized { vec_len self.new.values ≡ vec_len self.old.values }
        ensures trail { vec_len self.new.trail ≡ min mark (vec_len self.old.trail) }
        ensures settled { self.new.settled ≡ min mark self.old.settled }
        ensures kept { self.new.trail.items ≡ take (min mark (vec_len self.old.trail)) self.old.trail.items }
        ensures back { self.new.values.items ≡ put_back (drop (min mark (vec_len self.old.trail)) self.old.trail.items) self.old.values.items }
    {
        let Known {
            values,
            trail,
            settled,
        } = self;
        let kept = mark.min(trail.len());
        for class in &trail[kept..] {
            values[usize::from(*class)] = Value::Unknown;
        }
        trail.truncate(kept);
        *settled = (*settled).min(mark);
    }
}
