ghost use Rattle.std.specs.Prelude.{◌≡◌, ℕ, ◌+◌, ◌*◌, ◌<◌, ◌≤◌, Bool, MatchResult, length, vec_len};
ghost use Rattle.codes.specs.Tables.{index};
ghost use Rattle.systems.specs.Systems.{at, descriptor_of, weight_of};
ghost use Rattle.systems.specs.Trails.{hold_by, hold_each, hold_one};
ghost use Rattle.gathering.specs.Bounds.{Names};
ghost use Rattle.settling.specs.Knowing.{Coded, Grown, Looked, Refused, held, value_said};

use crate::contradiction::Contradiction;
use crate::known::Known;
use codes::{CENTRE, CONTRADICTION, NEIGHBOURS, SUCCESSOR, Table, Value};
use systems::Instance;

// The weight of a neighbour and the index of an instance spell out the layout of
// `Descriptor::index`, so that the hot loop makes no descriptor.

// What a neighbour adds to the index of a descriptor: 27 where it is on, 3 where it is unknown.
fn weight(value: Value) -> usize
    ensures value { result ≡ weight_of value }
    ensures few { result ≤ 27 }
{
    match value {
        Value::Off => 0,
        Value::On => 27,
        Value::Unknown => 3,
    }
}

// The index of an instance's descriptor: where its code stands in the table.
fn index_of(values: &[Value], instance: &Instance) -> usize
    requires { Names (length values.now) instance.now }
    ensures value { result ≡ index (descriptor_of (at values.now) instance.now) }
    ensures eight { length instance.now.neighbours ≡ 8 }
{
    let centre = usize::from(values[usize::from(instance.centre)]);
    let successor = usize::from(values[usize::from(instance.successor)]);
    let mut index = centre * 243 + successor;
    // no `map` and `sum`: their closure would not know that each class it gets has a value
    for class in &instance.neighbours {
        index += weight(values[usize::from(*class)]);
    }
    index
}

impl Known {
    // Sets a class, if anything is said of it.
    fn set_said(&mut self, class: u16, said: Option<bool>)
        requires { class < vec_len self.old.values }
        ensures grown { Grown self.old self.new }
        ensures set { held self.new ≡ hold_one (value_said said) class (held self.old) }
    {
        if let Some(on) = said {
            self.set(class, on);
        }
    }

    // Sets an instance's neighbours, if anything is said of them.
    fn set_neighbours(&mut self, instance: &Instance, said: Option<bool>)
        requires { Names (vec_len self.old.values) instance.now }
        ensures grown { Grown self.old self.new }
        ensures set { held self.new ≡ hold_each (value_said said) instance.now.neighbours (held self.old) }
    {
        let Some(on) = said else {
            return;
        };
        for class in &instance.neighbours {
            self.set(*class, on);
        }
    }

    // Sets what a code says that an instance forces.
    fn force(&mut self, instance: &Instance, code: u8)
        requires { Names (vec_len self.old.values) instance.now }
        ensures grown { Grown self.old self.new }
        ensures set { code < 128 → held self.new ≡ hold_by code instance.now (held self.old) }
    {
        self.set_said(instance.centre, CENTRE.said(code));
        self.set_said(instance.successor, SUCCESSOR.said(code));
        self.set_neighbours(instance, NEIGHBOURS.said(code));
    }

    // Looks at one instance and sets what it forces.
    pub(crate) fn examine(
        &mut self,
        table: &Table,
        instance: &Instance,
    ) -> Result<(), Contradiction>
        requires { Names (vec_len self.old.values) instance.now }
        ensures grown { Grown self.old self.new }
        ensures looked { (rule : Bool → ℕ → Bool) → Coded table.now rule → MatchResult result (λ _. Looked rule instance.now self.old self.new) (λ _. Refused rule instance.now self.old self.new) }
    {
        match table.code_at(index_of(self.values.as_slice(), instance)) {
            0 => Ok(()),
            CONTRADICTION => Err(Contradiction),
            code => {
                self.force(instance, code);
                Ok(())
            }
        }
    }
}
