// Orders of the cells of a box: in which turn a search asks for them.
#![tactic(auto)]

mod generations;
mod laws;
mod order;
mod places;

pub use generations::Generations;
pub use laws::{orders_stand, ranks_stand};
pub use order::Order;
pub use places::{Columns, Places, Rows};
