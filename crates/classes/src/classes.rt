ghost use Rattle.std.specs.Prelude.{◌≡◌, ℕ, ◌<◌, ◌≤◌, vec_len, slice_index};

// What the ties ask of a class: to be off, to be on, both (then it is torn) or nothing. Two flags and
// no enum, since each is asked without a look at the other.
#[derive(Clone, Copy, Default)]
pub struct Musts {
    pub off: bool,
    pub on: bool,
}

// The classes of a space, numbered from 0 in the sequence of their lowest cells.
#[derive(Drop)]
pub struct Classes {
    // the class of each cell
    pub(crate) labels: Vec<u16>,
    // the lowest cell of each class; no pair with what is asked of it: this is whole before anything
    // is asked, the laws speak of each list alone, and no code reads the two together
    pub(crate) lowest: Vec<u16>,
    pub(crate) musts: Vec<Musts>,
    // how many classes nothing is asked of
    pub(crate) free: u32,
    ghost few: { vec_len labels ≤ 4096 },
    ghost fewer: { vec_len lowest ≤ vec_len labels },
    ghost asked: { vec_len musts ≡ vec_len lowest },
    ghost below: { (k : ℕ) → k < vec_len labels → slice_index labels.items k < vec_len lowest },
}
