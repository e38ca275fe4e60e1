// The lines that a lister prints beside the texts of the finds.
#![tactic(auto)]

mod printing;

pub use printing::{refusal_of, write_found, write_refused};
