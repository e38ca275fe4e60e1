// How a settled search stands.
#[derive(Clone, Copy, PartialEq, Eq, Debug)]
pub enum Standing {
    // there is a contradiction
    Contradiction,
    // every class is known without a contradiction, and this find is not told yet
    Find,
    // the find is told
    Told,
    // the lowest rank whose cell is unknown
    Choice(usize),
}

// A decision: which rank it was chosen for, whether it is on now, and how long the trail was before.
#[derive(Clone, Copy, PartialEq, Eq, Debug)]
pub struct Decision {
    pub rank: usize,
    pub on: bool,
    pub mark: usize,
}
