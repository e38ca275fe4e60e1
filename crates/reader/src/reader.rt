ghost use Rattle.std.specs.Prelude.{◌≡◌, ◌≤◌, length};
ghost use Rattle.rle.specs.Spots.{spot_at};

use rle::Phase;

// Goes through a text of at most 65,536 bytes. It stands before the byte at `at`, in a line and a
// column that count from 1. Place, line and column stand flat here: that is a form of the reader that
// the project fixes.
#[derive(Clone, Copy)]
pub struct Reader<'a> {
    pub(crate) text: &'a [u8],
    pub(crate) at: usize,
    pub(crate) line: u32,
    pub(crate) column: u32,
    pub(crate) phase: Phase,
    ghost short: { length text.now ≤ 65536 },
    ghost within: { at ≤ length text.now },
    ghost lined: { (spot_at text.now at).line ≡ line },
    ghost columned: { (spot_at text.now at).column ≡ column },
}
