// One account of two parties: what a search answers to any list of calls, and what the checker says of any
// texts, over one space and rule.
#![tactic(auto)]

mod parties;
mod report;
mod room;

pub use parties::account;
pub use report::{Report, Verdict};
pub use room::{NoRoom, Room};
