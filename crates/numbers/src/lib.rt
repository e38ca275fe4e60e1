// Decimal numbers over every u64: written by the library's digits, read without leading zeros.
#![tactic(auto)]

mod laws;
mod reading;
mod writing;

pub use laws::digits_stand;
pub use reading::{read_decimal, with_digit};
pub use writing::{decimal_len, write_decimal};
