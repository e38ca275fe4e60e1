ghost use Rattle.std.specs.Prelude.{◌≡◌};
ghost use Rattle.words.specs.Words.{number_of, signed_of};

use crate::cuts::after_key;
use numbers::read_decimal;

// A number from 0 to 9,999, without leading zeros.
pub(crate) fn number_of(word: &[u8]) -> Option<u16>
    ensures { result ≡ number_of word.now }
{
    let n = read_decimal(word)?;
    if n > 9999 {
        return None;
    }
    // at most 9,999, so no bit is lost
    Some(n as u16)
}

// The same, with `-` before it where it is below 0.
pub(crate) fn signed_of(word: &[u8]) -> Option<i32>
    ensures { result ≡ signed_of word.now }
{
    let Some(digits) = after_key(word, b"-") else {
        return Some(i32::from(number_of(word)?));
    };
    match number_of(digits)? {
        0 => None,
        n => Some(-i32::from(n)),
    }
}
