// What a row of ties asks of a cell.
#[derive(Clone, Copy, PartialEq, Eq, Debug)]
pub enum Tie {
    // nothing
    Free,
    // to be off
    Off,
    // to be on
    On,
    // to be as the cell of this number
    Same(u32),
}
