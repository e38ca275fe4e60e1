// Checks a pattern's text against a space and a rule.
#![tactic(auto)]

mod fault;
mod judging;
mod laws;

pub use fault::{CheckFault, RuleAt};
pub use judging::check;
pub use laws::{
    accepting_stands, refusing_stands, roll_stands, verdicts_stand, worked_checks_stand,
};
