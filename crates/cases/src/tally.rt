use std::fmt;

// How many cases agree, and how many differ.
#[derive(Clone, Copy, PartialEq, Eq, Debug)]
pub struct Tally {
    pub agree: u32,
    pub differ: u32,
}

impl Tally {
    pub const NONE: Tally = Tally {
        agree: 0,
        differ: 0,
    };

    pub fn count(&mut self, agrees: bool) {
        let counted = if agrees {
            &mut self.agree
        } else {
            &mut self.differ
        };
        *counted = counted.saturating_add(1);
    }
}

impl fmt::Display for Tally {
    fn fmt<W: fmt::Write>(&self, f: &mut fmt::Formatter<W>) -> fmt::Result {
        write!(f, "{} agree, {} differ", self.agree, self.differ)
    }
}
