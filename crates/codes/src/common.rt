// Whether every fitting pair says off, and whether every one says on: two flags and no enum, since
// of a part that has no unknown neighbour every pair says both.
#[derive(Clone, Copy)]
pub(crate) struct Verdict {
    pub(crate) off: bool,
    pub(crate) on: bool,
}

// What fitting pairs, of which there is at least one, have in common.
#[derive(Clone, Copy)]
pub(crate) struct Common {
    pub(crate) centre: Verdict,
    pub(crate) successor: Verdict,
    pub(crate) neighbours: Verdict,
}
