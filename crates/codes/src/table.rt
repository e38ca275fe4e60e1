// The code of every descriptor under one rule, by index: an array, since there are 729 places
// whatever the rule.
#[derive(Clone, Copy)]
pub struct Table {
    pub(crate) codes: [u8; 729],
}
