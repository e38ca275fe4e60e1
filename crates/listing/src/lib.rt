// The page's loop: a search runs on until it is done, and each find is handed on as it is told.
#![tactic(auto)]

mod fault;
mod page;
mod sink;
mod space;

pub use fault::ListFault;
pub use page::{PAGE_SIZE, blank_page, list_page};
pub use sink::{Closed, Sink};
pub use space::list_space;
