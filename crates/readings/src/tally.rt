// `cases` counts in the same way: a crate of its own for it, with its contracts, would be longer than what
// it saves.

use std::{fmt, fs};

// How many cases agree, and how many differ.
#[derive(Clone, Copy, PartialEq, Eq, Debug)]
pub struct Tally {
    pub agree: u32,
    pub differ: u32,
}

impl fmt::Display for Tally {
    fn fmt<W: fmt::Write>(&self, f: &mut fmt::Formatter<W>) -> fmt::Result {
        write!(f, "{} agree, {} differ", self.agree, self.differ)
    }
}

// Tries every case that a list names.
pub fn tally_of<F: FnMut(&str) -> anyhow::Result<bool>>(
    rt: &HostRuntime,
    list: &str,
    mut agrees: F,
) -> anyhow::Result<Tally>
    requires { F.IsAlwaysCallable agrees }
{
    let names = fs::read_to_string(rt, list)?;
    let mut tally = Tally {
        agree: 0,
        differ: 0,
    };
    for name in names.as_str().lines() {
        if agrees(name)? {
            tally.agree = tally.agree.saturating_add(1);
        } else {
            tally.differ = tally.differ.saturating_add(1);
        }
    }
    Ok(tally)
}
