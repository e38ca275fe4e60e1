ghost use Rattle.rle.specs.Items.{mark_of};
ghost use Rattle.rle.specs.Runs.{letter_of};
ghost use Rattle.rle.specs.declared.fault.ReadCause.TheVariants.{Byte};
ghost use Rattle.std.specs.Prelude.{◌≡◌};
ghost use Rattle.std.specs.Option.{ok_or};

use crate::fault::ReadCause;

// What a run repeats: a cell or a step down.
#[derive(Clone, Copy, PartialEq, Eq, Debug)]
pub enum Mark {
    Off,
    On,
    NextRow,
}

// The mark that a byte stands for; any other byte is out of place.
impl TryFrom<u8> for Mark {
    type Error = ReadCause;

    ghost try_from_gives = { λ byte r. r ≡ ok_or (mark_of byte) Byte };

    fn try_from(byte: u8) -> Result<Mark, ReadCause> {
        // by char literals: the form that this project fixes for marks
        match byte as char {
            'b' => Ok(Mark::Off),
            'o' => Ok(Mark::On),
            '$' => Ok(Mark::NextRow),
            _ => Err(ReadCause::Byte),
        }
    }
}

// The letter that a mark is written as.
impl From<Mark> for u8 {
    ghost from_gives = { λ mark byte. byte ≡ letter_of mark };

    fn from(mark: Mark) -> u8 {
        match mark {
            Mark::Off => b'b',
            Mark::On => b'o',
            Mark::NextRow => b'$',
        }
    }
}

// Equal marks in a row.
#[derive(Clone, Copy, PartialEq, Eq, Debug)]
pub struct Run {
    pub count: usize,
    pub mark: Mark,
}
