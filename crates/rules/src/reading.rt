ghost use Rattle.std.specs.Prelude.{◌≡◌, ◌/◌, ◌%◌, ◌<◌, ◌&&◌, IfOk, ◌==◌};
ghost use Rattle.rules.specs.Answers.{answer, holds};
ghost use Rattle.rules.specs.Forms.{parsed, rising, shown, written, FormsStand};

use crate::fault::RuleFault;
use crate::rule::Rule;

// Digits read from the front of a text, as a set, and the bytes after them.
#[derive(Clone, Copy)]
struct Digits<'a> {
    set: u16,
    rest: &'a [u8],
}

// The longest row of rising digits from 0 to 8 at the front of a text. What a digit has to be
// depends on the one before it, so no `take_while` says it.
fn rising_digits(text: &[u8]) -> Digits<'_>
    ensures few { result.set < 512 }
    ensures row { rising 0 0 text.now ≡ record { set = result.set; rest = result.rest.now } }
{
    let mut set: u16 = 0;
    let mut rest = text;
    let mut least = b'0';
    while let [byte, after @ ..] = rest {
        if *byte < least || *byte > b'8' {
            break;
        }
        set += 1 << (*byte - b'0');
        least = *byte + 1;
        rest = after;
    }
    Digits { set, rest }
}

// Whether a set of bits holds a digit.
pub(crate) fn holds_digit(set: u16, digit: u32) -> bool
    requires { digit < 9 }
    ensures { result ≡ holds set digit }
{
    (set >> digit) % 2 == 1
}

impl Rule {
    // The rule of a text `B`, rising digits, `/S`, rising digits.
    pub fn parse(text: &[u8]) -> Result<Rule, RuleFault>
        ensures value { shown result ≡ parsed text.now }
        ensures form { IfOk result (λ rule. text.now ≡ written rule.births rule.survivals) }
    {
        let [b'B', after_letter @ ..] = text else {
            return Err(RuleFault::Form);
        };
        let births = rising_digits(after_letter);
        let [b'/', b'S', after_slash @ ..] = births.rest else {
            return Err(RuleFault::Form);
        };
        let survivals = rising_digits(after_slash);
        if !survivals.rest.is_empty() {
            return Err(RuleFault::Form);
        }
        if births.set % 2 == 1 {
            return Err(RuleFault::BirthZero);
        }
        Ok(Rule {
            births: births.set,
            survivals: survivals.set,
        })
    }

    // The texts that are rules are the written forms of rules, one for each.
    pub fn forms_stand()
        ensures { FormsStand }
    {}

    // Whether this is B3/S23.
    pub fn is_life(&self) -> bool
        ensures { result ≡ (self.now.births == 8 && self.now.survivals == 12) }
    {
        self.births == 8 && self.survivals == 12
    }

    // Whether the centre is on in the next generation.
    pub fn answer(&self, centre: bool, sum: u32) -> bool
        ensures { result ≡ answer self.now centre sum }
    {
        if sum > 8 {
            return false;
        }
        let set = if centre { self.survivals } else { self.births };
        holds_digit(set, sum)
    }
}

// Beside `parse`, the name that the calls have: `?` and generic code take this form.
impl TryFrom<&[u8]> for Rule {
    type Error = RuleFault;

    ghost try_from_gives = { λ text answer. shown answer ≡ parsed text.now };

    // The rule of a text, as `parse` reads it.
    fn try_from(text: &[u8]) -> Result<Rule, RuleFault> {
        Rule::parse(text)
    }
}
