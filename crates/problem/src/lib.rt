// A problem read from a text.
#![tactic(auto)]

mod fault;
mod forms;
mod laws;
mod problem;
mod reading;
#[cfg(test)]
mod tests;

pub use fault::{Cause, ProblemFault};
pub use laws::problems_stand;
pub use problem::Problem;
pub use reading::read_problem;
