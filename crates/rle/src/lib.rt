// What RLE texts are: marks, runs, faults and the grammar, with its laws. The reader and the writer rest on it.
#![tactic(auto)]

mod fault;
mod laws;
mod mark;
mod phase;

pub use fault::{ReadCause, ReadFault};
pub use laws::{patterns_stand, reading_stands, round_trip_stands};
pub use mark::{Mark, Run};
pub use phase::{Cursor, Phase, Step};
