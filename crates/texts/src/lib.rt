// RLE texts of patterns: their writer.
#![tactic(auto)]

mod body;
mod heading;
mod mark;
mod runs;
mod writing;

pub use pages::PageFault;
pub use writing::write_pattern;

#[cfg(test)]
mod tests;
