ghost use Rattle.std.specs.Prelude.{◌≡◌, ℕ, ◌+◌, ◌<◌, ◌≤◌, List, [], ◌∷◌, ◌++◌, map, IfOk, slice_index_or, vec_len};
ghost use Rattle.std.specs.List.{range_with_len};
ghost use Rattle.rules.specs.Answers.{answer};
ghost use Rattle.codes.specs.Tables.{code_at, code_in};
ghost use Rattle.classes.specs.Asked.{unasked};
ghost use Rattle.systems.specs.Spaces.{first_value, start_of};
ghost use Rattle.settling.specs.Boards.{settled_len, trail_of, values_of};

use crate::board::Board;
use crate::known::Known;
use classes::{Classes, Musts};
use codes::{Table, Value};
use gathering::System;
use rules::Rule;
use std::alloc::{AllocError, Global};
use std::iter;

// What is known of a class from the start. A torn class is known too: it is off.
fn first_value(musts: Musts) -> Value
    ensures { result ≡ first_value musts }
{
    if musts.off {
        Value::Off
    } else if musts.on {
        Value::On
    } else {
        Value::Unknown
    }
}

// What is known of each class from the start, and of nothing, which is off.
fn first_values(heap: Global, classes: &Classes) -> Result<Vec<Value>, AllocError>
    ensures len { IfOk result (λ v. vec_len v ≡ vec_len classes.now.lowest + 1) }
    ensures values { IfOk result (λ v. v.items ≡ map (λ class. first_value (slice_index_or classes.now.musts.items class unasked)) (range_with_len 0 (vec_len classes.now.lowest)) ++ Value.Off ∷ []) }
{
    (0..classes.count())
        .map(|class| first_value(classes.musts(class)))
        .chain(iter::once(Value::Off))
        .collect(heap)
}

impl Board {
    /// The board of a system under a rule, with what the rows ask of the system's classes known and
    /// nothing settled yet. Refused only for want of memory.
    pub fn of(heap: Global, system: System, rule: &Rule) -> Result<Board, AllocError>
        ensures system { IfOk result (λ b. b.system ≡ system) }
        ensures table { IfOk result (λ b. (n : ℕ) → code_in b.table n ≡ code_at (answer rule.now) n) }
        ensures trail { IfOk result (λ b. trail_of b ≡ []) }
        ensures settled { IfOk result (λ b. settled_len b ≡ 0) }
        ensures values { IfOk result (λ b. values_of b ≡ start_of system.classes.musts.items) }
    {
        let known = Known {
            values: first_values(heap, system.classes())?,
            trail: Vec::with_capacity(heap, system.count() + 1)?,
            settled: 0,
        };
        Ok(Board {
            system,
            table: Table::of(rule),
            known,
        })
    }
}
