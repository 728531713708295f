// Questions on a finished sheet, answered from corners of its table.
#![tactic(auto)]

mod inks;
mod laterals;
mod means;
mod spreads;
#[cfg(test)]
mod tests;
mod totals;

pub use inks::{fixed_ink, share_ink};
pub use laterals::lateral_totals;
pub use means::{mean, mean_page};
pub use spreads::spread;
pub use totals::total;
