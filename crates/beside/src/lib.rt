// Small sheets of random levels with random edits, and a plain page kept beside each of them.
#![tactic(auto)]

mod kind;
mod page;
mod pixels;
mod random;
mod size;
#[cfg(test)]
mod tests;
mod trial;
mod watched;

pub use kind::Kind;
pub use page::Page;
pub use pixels::Pixels;
pub use random::{Levels, Random};
pub use size::{SIDE, Size};
pub use trial::{Compared, KindTally, Tally, trials};
pub use watched::{ENTRIES, Edited, Watched};
