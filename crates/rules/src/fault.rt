ghost use Rattle.rules.specs.Faults.{number_of};
ghost use Rattle.std.specs.Prelude.{◌≡◌};

// Why a text is no rule.
#[derive(Clone, Copy, PartialEq, Eq, Debug)]
pub enum RuleFault {
    // not `B`, rising digits, `/S`, rising digits
    Form,
    // a birth digit 0: an empty plane would not stay empty
    BirthZero,
}

impl RuleFault {
    // The number that a user sees.
    pub fn number(&self) -> u32
        ensures { result ≡ number_of self.now }
    {
        match self {
            RuleFault::Form => 5,
            RuleFault::BirthZero => 6,
        }
    }
}
