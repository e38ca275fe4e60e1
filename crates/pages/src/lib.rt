// Pages that texts and lines are written into, from a place on.
#![tactic(auto)]

mod fault;
mod putting;

pub use fault::PageFault;
pub use putting::{put, put_number, write_text};
