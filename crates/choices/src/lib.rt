// Orders that are chosen at run time. The plane that is chosen so is `planes::Surface`, handed on.
#![tactic(auto)]

mod any_order;

pub use any_order::AnyOrder;
pub use planes::Surface;
