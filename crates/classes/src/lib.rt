// The classes of a space: cells that chains of ties ask to be the same, and what is asked of each.
#![tactic(auto)]

mod classes;
mod finding;
mod laws;
mod musts;
mod numbering;
mod reading;
mod ties;
mod uniting;

pub use classes::{Classes, Musts};
pub use finding::classes_of;
pub use laws::{classes_stand, free_stands, labels_stand, musts_stand, worked_classes_stand};
