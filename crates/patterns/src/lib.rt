// What an RLE text tells when it is read whole, and where its pattern lies in a box.
#![tactic(auto)]

mod laws;
mod laying;
mod pattern;
mod reading;

pub use laws::telling_stands;
pub use laying::laid;
pub use pattern::Pattern;
