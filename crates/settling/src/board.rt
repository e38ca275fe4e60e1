ghost use Rattle.std.specs.Prelude.{◌≡◌, ◌+◌, vec_len};
ghost use Rattle.gathering.specs.Systems.{class_count};

use crate::known::Known;
use codes::Table;
use gathering::System;

// A system under a rule, and what is known of its classes.
#[derive(Drop)]
pub struct Board {
    pub(crate) system: System,
    pub(crate) table: Table,
    pub(crate) known: Known,
    ghost sized: { vec_len known.values ≡ class_count system + 1 },
}
