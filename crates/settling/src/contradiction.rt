// Around some instance no pair fits: what is known has no solution.
#[derive(Clone, Copy, PartialEq, Eq, Debug)]
pub struct Contradiction;
