// What the programs read and print, over any reader and any writer: `run` for the lister, `ask` and `judge`
// for the checker.
#![tactic(auto)]

mod asking;
mod fault;
mod judging;
mod lister;
mod output;
mod printer;
mod spaces;
#[cfg(test)]
mod tests;
mod text;

pub use asking::ask;
pub use fault::RunFault;
pub use judging::judge;
pub use lister::{list_to, run};
pub use spaces::{AsTold, Spaces, ToldSpace};
