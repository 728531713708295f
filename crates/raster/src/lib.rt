// What lies about a pixel, and pages that are drawn pixel by pixel.
#![tactic(auto)]

mod cut;
mod drawing;
mod laws;
mod neighbourhood;
mod offsets;
mod region;
mod windowed;

pub use cut::Cut;
pub use drawing::{draw, room, sides};
pub use laws::regions_are_exact;
pub use neighbourhood::Neighbourhood;
pub use offsets::{Offsets, Window};
pub use region::{cut_at, reflected_cut_at};
pub use windowed::{POINT, draw_windowed, neighbourhood_at};
