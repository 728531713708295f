// A sheet: a table of partial sums over lent memory, fed row by row, then patched, wiped and questioned.
#![tactic(auto)]

mod cells;
mod fill;
mod finished;
mod fitting;
mod frame;
mod growing;
mod pages;
mod passes;
mod questions;
mod rectangle;
mod rows;
mod span;
mod state;
mod table;
mod whole;

pub use fitting::fits;
pub use frame::Frame;
pub use growing::begin;
pub use pages::lay_page;
pub use rectangle::Rectangle;
pub use span::Span;
pub use state::{Finished, Growing};
pub use table::Table;
