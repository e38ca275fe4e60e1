// Settling: what is known of each class, setting what is forced, and putting it back.
#![tactic(auto)]

mod board;
mod contradiction;
mod forcing;
mod known;
mod settling;
mod starting;

pub use board::Board;
pub use contradiction::Contradiction;
