// The five filters on ink sheets: median, erosion, dilation, opening and closing.
#![tactic(auto)]

mod laws;
mod majority;
mod morphology;
mod step;
mod stepped;
#[cfg(test)]
mod tests;
mod two_steps;

pub use majority::median;
pub use morphology::{closing, dilation, erosion, opening};
