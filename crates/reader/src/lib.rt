// Reads RLE texts: hands out remarks, the heading, runs and the end, or the first fault, each with its line and column.
#![tactic(auto)]

mod body;
mod gap;
mod heading;
mod item;
mod laws;
mod reader;
mod reading;
mod scanning;
mod sizes;
mod steps;

pub use item::{Heading, Item, Located};
pub use laws::{answers_repeat, calls_stand};
pub use reader::Reader;
