ghost use Rattle.std.specs.Prelude.{◌≡◌, ℕ, ◌<◌, ◌≤◌, length, vec_len, vec_capacity, slice_index_or};
ghost use Rattle.frames.specs.Frames.{cells};
ghost use Rattle.settling.specs.Boards.{labels_of};
ghost use Rattle.search.specs.Decided.{first};
ghost use Rattle.search.specs.declared.standing.Standing.TheVariants.{Choice};

use crate::standing::{Decision, Standing};
use frames::Frame;
use rules::Rule;
use settling::Board;

// What an opened search holds. It has asked the space and the order all that it wants to know.
#[derive(Drop)]
pub struct Record {
    pub(crate) frame: Frame,
    pub(crate) rule: Rule,
    // the class of the cell of each rank
    pub(crate) ranks: Vec<u16>,
    // the system of the space, with its classes, under the rule, and what is known
    pub(crate) board: Board,
    // the standing decisions, with room for one of each rank
    pub(crate) decisions: Vec<Decision>,
    pub(crate) standing: Standing,
    // whether the last go answered found: no case of the standing, since a told find may stand when
    // a later go answered done
    pub(crate) found: bool,
    pub(crate) tally: u64,
    ghost classed: { length (labels_of board) ≡ cells frame },
    ghost reserved: { vec_len ranks ≤ vec_capacity decisions },
    ghost rising: { (j : ℕ) → j < vec_len decisions → j ≤ (slice_index_or decisions.items j first).rank },
    ghost ranked: { (j : ℕ) → j < vec_len decisions → (slice_index_or decisions.items j first).rank < vec_len ranks },
    ghost deep: { (r : ℕ) → standing ≡ Choice r → vec_len decisions ≤ r },
    ghost inside: { (r : ℕ) → standing ≡ Choice r → r < vec_len ranks },
}
