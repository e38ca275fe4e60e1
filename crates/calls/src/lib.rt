// The calls of a search as values, and one function that makes any of them.
#![tactic(auto)]

mod any_call;
mod call;
mod fault;
mod laws;
mod performing;

pub use any_call::AnyCall;
pub use call::{Call, Opening, Reply};
pub use fault::CallFault;
pub use laws::{openings_stand, runs_decided};
pub use performing::perform;
