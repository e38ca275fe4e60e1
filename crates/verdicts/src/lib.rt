// What a check comes to, and the line that tells it.
#![tactic(auto)]

mod verdict;
mod writing;

pub use verdict::{Place, Refusal, Verdict};
pub use writing::{Words, words_of, write_verdict};
