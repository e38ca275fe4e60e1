// The words of a line, parted by one blank each, and the numbers that words are.
#![tactic(auto)]

mod cuts;
mod digits;
mod laws;
mod words;

pub use cuts::value_of;
pub use laws::words_stand;
pub use words::Words;
