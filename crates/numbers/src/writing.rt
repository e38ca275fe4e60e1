ghost use Rattle.std.specs.Prelude.{◌≡◌, ◌≤◌, length, decimal};
ghost use Rattle.numbers.specs.Writing.{Written};

use itoa::Buffer;

// How many digits a number has: 1 to 20.
pub fn decimal_len(n: u64) -> usize
    ensures value { result ≡ length (decimal n) }
    ensures bounds { (1 ≤ result) × (result ≤ 20) }
{
    Buffer::new().format(n).len()
}

// Writes the digits at the front of the tail and says how many they are; none where the tail is too
// short, and it is then as it was.
pub fn write_decimal(tail: &mut [u8], n: u64) -> Option<usize>
    ensures { Written (decimal n) tail.old tail.new result }
{
    let mut buffer = Buffer::new();
    let digits = buffer.format(n).as_bytes();
    if tail.len() < digits.len() {
        return None;
    }
    tail[..digits.len()].copy_from_slice(digits);
    Some(digits.len())
}
