ghost use Rattle.std.specs.Prelude.{◌≡◌, ℕ, ◌+◌, ◌<◌, ◌≤◌, List, ◌++◌, length, min, take, drop, MatchResult, OnOk, OnErr};
ghost use Rattle.codes.specs.Codes.{is_unknown};
ghost use Rattle.codes.specs.declared.value.Value.{Value};
ghost use Rattle.gathering.specs.Systems.{class_count};
ghost use Rattle.systems.specs.Settling.{Settles};
ghost use Rattle.systems.specs.Systems.{Sys, at};
ghost use Rattle.systems.specs.Trails.{Grows, QuietBut, Trailed, hold};
ghost use Rattle.settling.specs.Boards.{Kept, MeetsAt, Serves, held_of, settled_len, trail_len, trail_of, unsettled_of, values_of};
ghost use Rattle.settling.specs.Knowing.{Around, Grown, Through, put_back};

use crate::board::Board;
use crate::contradiction::Contradiction;
use classes::Classes;
use codes::Value;

impl Board {
    /// The classes of the space.
    pub fn classes(&self) -> &Classes
        ensures { result.now ≡ self.now.system.classes }
    {
        self.system.classes()
    }

    // What is known of a class; nothing is known of one that there is not.
    pub fn value(&self, class: u16) -> Value
        ensures { result ≡ at (values_of self.now) class }
    {
        self.known
            .values
            .get(usize::from(class))
            .copied()
            .unwrap_or(Value::Unknown)
    }

    // Whether nothing is known of a class.
    pub fn is_unknown(&self, class: u16) -> bool
        ensures { result ≡ is_unknown (at (values_of self.now) class) }
    {
        matches!(self.value(class), Value::Unknown)
    }

    // How many classes are on the trail.
    pub fn mark(&self) -> usize
        ensures { result ≡ trail_len self.now }
    {
        self.known.trail.len()
    }

    // Decides an unknown class.
    pub fn decide(&mut self, class: u16, on: bool)
        ensures kept { Kept self.old self.new }
        ensures longer { trail_len self.old ≤ trail_len self.new }
        ensures settled { settled_len self.new ≡ settled_len self.old }
        ensures held { class ≤ class_count self.old.system → held_of self.new ≡ hold class on (held_of self.old) }
        ensures past { class_count self.old.system < class → held_of self.new ≡ held_of self.old }
    {
        if usize::from(class) < self.known.values.len() {
            self.known.set(class, on);
        }
    }

    /// Puts back every class that was set since the trail had the length `mark`; nothing where it is no
    /// longer.
    pub fn undo(&mut self, mark: usize)
        ensures kept { Kept self.old self.new }
        ensures trail { trail_of self.new ≡ take (min mark (trail_len self.old)) (trail_of self.old) }
        ensures settled { settled_len self.new ≡ min mark (settled_len self.old) }
        ensures values { values_of self.new ≡ put_back (drop (min mark (trail_len self.old)) (trail_of self.old)) (values_of self.old) }
        ensures back { (σ : List Value) (xs ys : List ℕ) → trail_of self.old ≡ xs ++ ys → length xs ≡ mark → Trailed σ (values_of self.old) ys → (values_of self.new ≡ σ) × (trail_of self.new ≡ xs) }
    {
        self.known.undo(mark);
    }

    // Looks at the instances that touch a class.
    fn examine_around(&mut self, class: u16) -> Result<(), Contradiction>
        ensures kept { Kept self.old self.new }
        ensures grown { Grown self.old.known self.new.known }
        ensures around { (S : Sys) → Serves self.old S → class < class_count self.old.system → MatchResult result (λ _. Around S class (held_of self.old) (held_of self.new)) (λ _. MeetsAt S (values_of self.old) (values_of self.new)) }
    {
        let Board {
            system,
            table,
            known,
        } = self;
        let instances = system.instances();
        for number in system.touching(class) {
            known.examine(table, &instances[usize::from(*number)])?;
        }
        Ok(())
    }

    /// Settles: looks around each class of the trail that was not settled yet, until nothing more is
    /// forced, or until a contradiction is met. Then too only what is forced is set, and what is known
    /// stays as the contradiction left it.
    pub fn settle(&mut self) -> Result<(), Contradiction>
        ensures kept { Kept self.old self.new }
        ensures longer { trail_len self.old ≤ trail_len self.new }
        ensures grows { Grows (held_of self.old) (held_of self.new) }
        ensures settled { OnOk result (settled_len self.new ≡ trail_len self.new) }
        ensures onward { settled_len self.old ≤ settled_len self.new }
        ensures settles { (S : Sys) → Serves self.old S → QuietBut S (at (values_of self.old)) (unsettled_of self.old) → OnOk result (Settles S (values_of self.old) (values_of self.new)) }
        ensures meets { (S : Sys) → Serves self.old S → OnErr result (MeetsAt S (values_of self.old) (values_of self.new)) }
        ensures quiet { (S : Sys) → Serves self.old S → QuietBut S (at (values_of self.old)) (unsettled_of self.old) → QuietBut S (at (values_of self.new)) (unsettled_of self.new) }
    {
        // the trail grows while it is gone through, so no iterator
        while let Some(class) = self.known.unsettled() {
            self.examine_around(class)?;
            self.known.settled += 1;
        }
        Ok(())
    }

    // Looks at every instance once.
    fn examine_all(&mut self) -> Result<(), Contradiction>
        ensures kept { Kept self.old self.new }
        ensures grown { Grown self.old.known self.new.known }
        ensures through { (S : Sys) → Serves self.old S → MatchResult result (λ _. Through S (held_of self.old) (held_of self.new)) (λ _. MeetsAt S (values_of self.old) (values_of self.new)) }
    {
        let Board {
            system,
            table,
            known,
        } = self;
        for instance in system.instances() {
            known.examine(table, instance)?;
        }
        Ok(())
    }

    /// Looks at every instance once, and then settles, whatever was settled before; refused where a
    /// contradiction is met, as `settle`.
    pub fn settle_all(&mut self) -> Result<(), Contradiction>
        ensures kept { Kept self.old self.new }
        ensures longer { trail_len self.old ≤ trail_len self.new }
        ensures grows { Grows (held_of self.old) (held_of self.new) }
        ensures settled { OnOk result (settled_len self.new ≡ trail_len self.new) }
        ensures onward { settled_len self.old ≤ settled_len self.new }
        ensures settles { (S : Sys) → Serves self.old S → OnOk result (Settles S (values_of self.old) (values_of self.new)) }
        ensures meets { (S : Sys) → Serves self.old S → OnErr result (MeetsAt S (values_of self.old) (values_of self.new)) }
    {
        self.examine_all()?;
        self.settle()
    }
}
