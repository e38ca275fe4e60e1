// Where a neighbour lies, from its centre.
#[derive(Clone, Copy, PartialEq, Eq, Debug)]
pub struct Offset {
    pub dx: i32,
    pub dy: i32,
}

// The neighbours of a place, row by row: the only list of them.
pub const NEIGHBOURS: [Offset; 8] = [
    Offset { dx: -1, dy: -1 },
    Offset { dx: 0, dy: -1 },
    Offset { dx: 1, dy: -1 },
    Offset { dx: -1, dy: 0 },
    Offset { dx: 1, dy: 0 },
    Offset { dx: -1, dy: 1 },
    Offset { dx: 0, dy: 1 },
    Offset { dx: 1, dy: 1 },
];
