// A place of the box: a column and a row, each from 0.
#[derive(Clone, Copy, PartialEq, Eq, Debug)]
pub struct Place {
    pub x: u32,
    pub y: u32,
}
