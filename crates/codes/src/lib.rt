// What a neighbourhood forces: descriptors, their codes by fitting pairs, and the table of 729 codes.
#![tactic(auto)]

mod coding;
mod common;
mod descriptor;
mod gathering;
mod laws;
mod life;
mod part;
mod table;
mod tabling;
mod value;

pub use coding::{CONTRADICTION, code_of};
pub use descriptor::Descriptor;
pub use laws::codes_stand;
pub use life::worked_codes_stand;
pub use part::{CENTRE, NEIGHBOURS, Part, SUCCESSOR};
pub use table::Table;
pub use value::{UnknownNumber, Value};
