ghost use Rattle.reader.specs.Left.{filler};
ghost use Rattle.std.specs.Prelude.{◌≡◌};

use lines::is_blank;

// What may be passed over: blanks, or blanks and newlines.
#[derive(Clone, Copy)]
pub(crate) enum Gap {
    Blanks,
    Space,
}

impl Gap {
    // Whether a byte may be passed over.
    pub(crate) fn holds(self, byte: u8) -> bool
        ensures { result ≡ filler self byte }
    {
        match self {
            Gap::Blanks => is_blank(byte),
            Gap::Space => is_blank(byte) || byte == b'\n',
        }
    }
}
