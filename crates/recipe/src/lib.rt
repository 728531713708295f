// Recipes: sixteen places for rectangles about a pixel, which an element or a kernel is made of.
#![tactic(auto)]

mod edits;
mod offsets;
mod places;
#[cfg(test)]
mod tests;

pub use edits::{Element, Placed};
pub use places::Recipe;
