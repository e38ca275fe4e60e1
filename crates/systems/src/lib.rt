// Systems of classes and instances: what is forced, what settling comes to, and that a filling of
// the classes solves the system of a space exactly when the filling of its cells keeps ties and rule.
#![tactic(auto)]

mod instance;
mod laws;

pub use instance::Instance;
pub use laws::{alike_stands, fillings_stand, settling_stands, solutions_stand, trails_stand};
