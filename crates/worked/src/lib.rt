// The worked examples of the product's rules, each by the definitions, in one list.
#![tactic(auto)]

mod laws;

pub use laws::{problem_spaces_stand, worked_list_stands};
