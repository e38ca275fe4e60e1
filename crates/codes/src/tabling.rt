ghost use Rattle.std.specs.Prelude.{◌≡◌, ℕ, ◌<◌};
ghost use Rattle.codes.specs.Laws.{TableTells};
ghost use Rattle.codes.specs.Tables.{code_at, code_in};
ghost use Rattle.rules.specs.Answers.{answer};

use crate::coding::code_of;
use crate::descriptor::Descriptor;
use crate::life::life_table;
use crate::table::Table;
use crate::value::Value;
use rules::Rule;

// The code at a place of a rule's table: 0 where more than 8 neighbours are on or unknown.
fn code_at_place(rule: &Rule, place: usize) -> u8
    requires { place < 729 }
    ensures { result ≡ code_at (answer rule.now) place }
{
    let centre = Value::try_from(place / 243).unwrap();
    // shown to fit, so that nothing can fail here
    let on = (place / 27 % 9) as u32;
    let unknown = (place / 3 % 9) as u32;
    let successor = Value::try_from(place % 3).unwrap();
    Descriptor::new(centre, on, unknown, successor).map_or(
        0,
        |descriptor| code_of(rule, &descriptor),
    )
}

// The codes of a rule, each worked out.
fn worked_out(rule: &Rule) -> Table
    ensures { (i : ℕ) → code_in result i ≡ code_at (answer rule.now) i }
{
    let mut codes = [0u8; 729];
    for (place, code) in codes.iter_mut().enumerate() {
        *code = code_at_place(rule, place);
    }
    Table { codes }
}

impl Table {
    // The table of a rule: fixed for B3/S23, worked out for any other.
    pub fn of(rule: &Rule) -> Table
        ensures codes { (i : ℕ) → code_in result i ≡ code_at (answer rule.now) i }
        ensures tell { TableTells (answer rule.now) result }
    {
        if rule.is_life() {
            return life_table();
        }
        worked_out(rule)
    }

    // The code at an index; 0 past the last.
    pub fn code_at(&self, index: usize) -> u8
        ensures { result ≡ code_in self.now index }
    {
        self.codes.get(index).copied().unwrap_or(0)
    }
}
