// What a filling is asked, instance by instance and tie by tie, and how generations are worked out.
#![tactic(auto)]

mod asking;
mod filled;
mod laws;
mod places;
mod ties;
mod working;

pub use asking::broken_instance;
pub use laws::{asking_stands, working_stands};
pub use places::{InstanceAt, TieAt};
pub use ties::broken_tie;
pub use working::worked_out;
