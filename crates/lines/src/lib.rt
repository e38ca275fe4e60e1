// Where lines end and what a blank is, decided in one place for RLE texts and problems alike.
#![tactic(auto)]

mod lines;

pub use lines::{Lines, MOST_BYTES, after, is_blank, line_end, trimmed_len};
