// Histories of searches: what a search tells from any state, and that over every history of calls
// from an opening the finds told are the first of the roll, in sequence, each once.
#![tactic(auto)]

mod laws;

pub use laws::{goes_stand, histories_stand, order_stands, runs_stand, worked_searches_stand};
