// What one place of one generation asks, by classes: the centre, its successor and the neighbours,
// each look counted. The class past the last stands for nothing, which is off. A place has eight
// neighbours, so they are an array.
#[derive(Clone, Copy, PartialEq, Eq, Hash)]
pub struct Instance {
    pub centre: u16,
    pub successor: u16,
    pub neighbours: [u16; 8],
}
