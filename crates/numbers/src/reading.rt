ghost use Rattle.numbers.specs.Reading.{Reads, Longer};

use std::str;

// The number with one digit more at its end; none where the byte is no digit or the number grows too large.
pub fn with_digit(n: u64, byte: u8) -> Option<u64>
    ensures { Longer n byte result }
{
    if !byte.is_ascii_digit() {
        return None;
    }
    n.checked_mul(10)?.checked_add(u64::from(byte - b'0'))
}

// How many digits the largest u64 has.
const MOST_DIGITS: usize = 20;

// The number whose row of digits these bytes are: no leading zero, and at most 2^64 - 1.
pub fn read_decimal(digits: &[u8]) -> Option<u64>
    ensures { Reads digits.now result }
{
    // a longer row is no number, and is not gone over
    if digits.len() > MOST_DIGITS {
        return None;
    }
    // `parse` takes a plus and leading zeros too
    if let [b'+', ..] | [b'0', _, ..] = digits {
        return None;
    }
    str::from_utf8(digits).ok()?.parse().ok()
}
