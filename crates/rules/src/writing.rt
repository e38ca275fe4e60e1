ghost use Rattle.std.specs.Prelude.{◌≡◌, ◌+◌, ◌≤◌, ◌++◌, true, length, take, Ok};
ghost use Rattle.std.specs.Str.{is_utf8};
ghost use Rattle.arrayvec.specs.ArrayString.{array_string_len};
ghost use Rattle.rules.specs.Forms.{digits_below, parsed, sets_of, written};

use crate::reading::holds_digit;
use crate::rule::Rule;
use arrayvec::ArrayString;
use std::str;

// A rule's text: the first `len` of 21 bytes, room for `B`, `/S` and nine digits of each kind. It
// holds no `ArrayString`, since a `Copy` struct that holds a struct with a model is not copied.
#[derive(Clone, Copy)]
pub struct RuleText {
    bytes: [u8; 21],
    len: usize,
    ghost fits: { len ≤ 21 },
    ghost utf8: { is_utf8 (take len bytes) ≡ true },
}

impl RuleText {
    pub fn len(&self) -> usize
        ensures value { result ≡ self.now.len }
        ensures text { result ≡ length (take self.now.len self.now.bytes) }
        ensures fits { result ≤ 21 }
    {
        self.len
    }

    pub fn as_str(&self) -> &str
        ensures bytes { result.now ≡ take self.now.len self.now.bytes }
        ensures fits { length result.now ≤ 21 }
    {
        str::from_utf8(self.as_slice()).unwrap()
    }

    pub fn as_slice(&self) -> &[u8]
        ensures bytes { result.now ≡ take self.now.len self.now.bytes }
        ensures len { length result.now ≡ self.now.len }
        ensures fits { length result.now ≤ 21 }
    {
        &self.bytes[..self.len]
    }
}

// Appends the digits of a set, lowest first.
fn push_digits(text: &mut ArrayString<21>, set: u16)
    requires { array_string_len text.old + 9 ≤ 21 }
    ensures digits { text.new.bytes ≡ text.old.bytes ++ digits_below 9 set }
    ensures len { array_string_len text.new ≤ array_string_len text.old + 9 }
{
    for digit in 0..9u8 {
        if holds_digit(set, u32::from(digit)) {
            text.push(char::from(b'0' + digit));
        }
    }
}

impl Rule {
    // The text of the rule, digits rising.
    pub fn text(&self) -> RuleText
        ensures bytes { take result.len result.bytes ≡ written self.now.births self.now.survivals }
        ensures len { result.len ≡ length (written self.now.births self.now.survivals) }
        ensures back { parsed (take result.len result.bytes) ≡ Ok (sets_of self.now) }
    {
        let mut text = ArrayString::<21>::new();
        text.push('B');
        push_digits(&mut text, self.births);
        text.push_str("/S");
        push_digits(&mut text, self.survivals);
        let len = text.len();
        let mut bytes = [0; 21];
        bytes[..len].copy_from_slice(text.as_str().as_bytes());
        RuleText { bytes, len }
    }
}
