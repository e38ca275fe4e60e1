// The search: it tells the fillings of a box that keep its ties and its rule, one by one.
#![tactic(auto)]

mod answer;
mod fault;
mod going;
mod opening;
mod reading;
mod record;
mod search;
mod standing;
mod stepping;
mod writing;

pub use answer::Answer;
pub use fault::{CellFault, GoFault, OpenFault, TallyFault, WriteFault};
pub use search::Search;
