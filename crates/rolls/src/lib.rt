// The roll: which fillings of a box are listed. Its definition, which search and checker share, and its laws.
#![tactic(auto)]

mod laws;

pub use laws::{
    margins_stand, neighbours_stand, order_laws_stand, roll_laws_stand, surface_stands,
    worked_rolls_stand,
};
