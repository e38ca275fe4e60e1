ghost use Rattle.std.specs.Prelude.{◌≡◌, ◌==◌, length};
ghost use Rattle.words.specs.Words.{after_key, given, left, next_number, next_signed, next_word, seen, word_left};

use crate::cuts::{after_blank, after_key, word_len};
use crate::digits::{number_of, signed_of};

// Goes through a line word by word. Each word has one blank before it, which parts it from what
// comes before.
#[derive(Clone, Copy)]
pub struct Words<'a> {
    pub(crate) rest: &'a [u8],
}

impl<'a> Words<'a> {
    // The words after the key that a line starts with.
    pub fn after(line: &'a [u8], key: &[u8]) -> Option<Words<'a>>
        ensures { left result ≡ after_key key.now line.now }
    {
        Some(Words {
            rest: after_key(line, key)?,
        })
    }

    /// The next word, which is passed. Where no blank comes next there is none, and nothing is passed.
    pub fn word(&mut self) -> Option<&'a [u8]>
        ensures value { given (seen result) self.new.rest.now ≡ next_word self.old.rest.now }
        ensures rest { self.new.rest.now ≡ word_left self.old.rest.now }
    {
        let text = after_blank(self.rest)?;
        let (word, rest) = text.split_at(word_len(text));
        self.rest = rest;
        Some(word)
    }

    /// The next word, where it is a number from 0 to 9,999 without leading zeros. A word that is none is
    /// passed too.
    pub fn number(&mut self) -> Option<u32>
        ensures value { given result self.new.rest.now ≡ next_number self.old.rest.now }
        ensures rest { self.new.rest.now ≡ word_left self.old.rest.now }
    {
        Some(u32::from(number_of(self.word()?)?))
    }

    /// The same, where a number below 0 has `-` before it.
    pub fn signed(&mut self) -> Option<i32>
        ensures value { given result self.new.rest.now ≡ next_signed self.old.rest.now }
        ensures rest { self.new.rest.now ≡ word_left self.old.rest.now }
    {
        signed_of(self.word()?)
    }

    // Whether nothing more stands in the line.
    pub fn is_done(&self) -> bool
        ensures { result ≡ (length self.now.rest.now == 0) }
    {
        self.rest.is_empty()
    }
}
