// The system of a space as the program holds it: its instances over classes, equal ones kept once, and for
// each class the instances that touch it.
#![tactic(auto)]

mod building;
mod ground;
mod making;
mod system;
mod touching;

pub use system::System;
