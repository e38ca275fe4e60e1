ghost use Rattle.std.specs.Prelude.{◌≤◌};

// Goes through a pattern and hands out its runs: what is left of this row, and the rows below.
#[derive(Clone, Copy)]
pub struct Runs<'a> {
    pub(crate) width: usize,
    pub(crate) line: &'a [bool],
    pub(crate) below: &'a [bool],
    ghost wide: { 1 ≤ width },
}
