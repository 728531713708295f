// The kinds of entry that a table of partial sums can hold.
#![tactic(auto)]

pub mod amount;
pub mod kind;
pub mod kinds;
pub mod laws;
#[cfg(test)]
mod tests;
pub mod unsigned;
pub mod word;

pub use kind::entry::Entry;
pub use kind::modular::Modular;
pub use kind::tally::Tally;
pub use kind::weighable::Weighable;
pub use kind::wide::WideTally;
pub use kinds::pair::Pair;
pub use kinds::{Energy, Ink, Narrow, Parity, Whole};
