// The box that is searched: its size, period and drift, and the numbers of its cells.
#![tactic(auto)]

mod fault;
mod frame;
mod laws;
mod making;

pub use fault::FrameFault;
pub use frame::{Cell, Frame};
pub use laws::{frames_stand, numbers_stand};
