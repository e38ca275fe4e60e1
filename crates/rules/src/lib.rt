// Rules of cellular automata in B/S notation: their text and their answers.
#![tactic(auto)]

mod fault;
mod reading;
mod rule;
#[cfg(test)]
mod tests;
mod writing;

pub use fault::RuleFault;
pub use rule::Rule;
pub use writing::RuleText;
