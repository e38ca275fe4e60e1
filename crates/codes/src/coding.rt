ghost use Rattle.std.specs.Prelude.{◌≡◌, ◌+◌, ◌<◌, ◌≤◌, MatchOption, OnSome};
ghost use Rattle.codes.specs.Codes.{code, is_unknown, parts_of};
ghost use Rattle.codes.specs.Laws.{CodeLaw};
ghost use Rattle.codes.specs.Parts.{said_of};
ghost use Rattle.codes.specs.Tables.{index};
ghost use Rattle.codes.specs.Values.{number_of, agrees};
ghost use Rattle.rules.specs.Answers.{answer};

use crate::common::Common;
use crate::descriptor::Descriptor;
use crate::part::{CENTRE, NEIGHBOURS, Part, SUCCESSOR};
use crate::value::Value;
use rules::Rule;

// The code of a descriptor that no filling of its unknown cells completes. It is a number and no
// enum, since it is an entry of the table.
pub const CONTRADICTION: u8 = 1;

impl Value {
    // The number of a value: 0 off, 1 on, 2 unknown. The call of old, beside the From.
    pub fn number(&self) -> u32
        ensures { result ≡ number_of self.now }
    {
        u32::from(*self)
    }

    // Whether the cell may have this state: an unknown one may have either.
    pub fn admits(&self, state: bool) -> bool
        ensures { result ≡ agrees self.now state }
    {
        match self {
            Value::Off => !state,
            Value::On => state,
            Value::Unknown => true,
        }
    }

    // Whether nothing is known of the cell.
    pub fn is_unknown(&self) -> bool
        ensures { result ≡ is_unknown self.now }
    {
        matches!(self, Value::Unknown)
    }
}

impl Descriptor {
    // A descriptor, unless it would have more than 8 neighbours.
    pub fn new(centre: Value, on: u32, unknown: u32, successor: Value) -> Option<Descriptor>
        ensures parts { MatchOption result (¬ (on + unknown ≤ 8)) (λ d. parts_of d ≡ record { centre = centre; on = on; unknown = unknown; successor = successor }) }
        ensures few { OnSome result (on + unknown ≤ 8) }
    {
        if on > 8 || unknown > 8 - on {
            return None;
        }
        Some(Descriptor {
            centre,
            on,
            unknown,
            successor,
        })
    }

    // The place of its code in a table.
    pub fn index(&self) -> usize
        ensures index { result ≡ index (parts_of self.now) }
        ensures below { result < 729 }
        ensures few { self.now.on + self.now.unknown ≤ 8 }
    {
        // no From takes a u32, which the counts are, to a usize
        let centre = u32::from(self.centre);
        let successor = u32::from(self.successor);
        (((centre * 9 + self.on) * 9 + self.unknown) * 3 + successor) as usize
    }
}

impl Part {
    // Whether a code says off or on of this part; none where it says neither.
    pub fn said(self, code: u8) -> Option<bool>
        ensures { result ≡ said_of self code }
    {
        (code & (self.off | self.on) != 0).then_some(code & self.on != 0)
    }
}

// What a descriptor forces under a rule: 1 for a contradiction, or a sum of 2 centre off, 4 centre
// on, 8 successor off, 16 successor on, 32 unknown neighbours off, 64 unknown neighbours on.
pub fn code_of(rule: &Rule, descriptor: &Descriptor) -> u8
    ensures value { result ≡ code (answer rule.now) (parts_of descriptor.now) }
    ensures tells { CodeLaw (answer rule.now) (parts_of descriptor.now) result }
    ensures few { descriptor.now.on + descriptor.now.unknown ≤ 8 }
{
    let Some(common) = Common::of(rule, descriptor) else {
        return CONTRADICTION;
    };
    let centre = common.centre.weight(descriptor.centre.is_unknown(), CENTRE);
    let successor = common
        .successor
        .weight(descriptor.successor.is_unknown(), SUCCESSOR);
    let neighbours = common.neighbours.weight(descriptor.unknown > 0, NEIGHBOURS);
    centre + successor + neighbours
}
