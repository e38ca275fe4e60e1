ghost use Rattle.lines.specs.Lines.{blank};
ghost use Rattle.std.specs.List.{position_or_len};
ghost use Rattle.std.specs.Prelude.{◌≡◌, ◌≤◌, length};
ghost use Rattle.words.specs.Words.{after_blank, after_key, seen, value_after};

use lines::is_blank;

// What follows a key that stands at the front.
pub(crate) fn after_key<'a>(line: &'a [u8], key: &[u8]) -> Option<&'a [u8]>
    ensures { seen result ≡ after_key key.now line.now }
{
    line.strip_prefix(key)
}

// What follows a blank that stands at the front.
pub(crate) fn after_blank(text: &[u8]) -> Option<&[u8]>
    ensures { seen result ≡ after_blank text.now }
{
    match text {
        [byte, rest @ ..] if is_blank(*byte) => Some(rest),
        _ => None,
    }
}

// How many bytes stand before the first blank, or before the end where there is none.
pub(crate) fn word_len(text: &[u8]) -> usize
    ensures value { result ≡ position_or_len blank text.now }
    ensures within { result ≤ length text.now }
{
    text.iter()
        .position(|byte| is_blank(*byte))
        .unwrap_or(text.len())
}

// All that follows the key that a line starts with and one blank.
pub fn value_of<'a>(line: &'a [u8], key: &[u8]) -> Option<&'a [u8]>
    ensures { seen result ≡ value_after key.now line.now }
{
    after_blank(after_key(line, key)?)
}
