//! The page around a drawing, and the drawing moved to it.
#![tactic(auto)]

mod around;
mod census;
mod diagonal;
mod extent;
pub mod laws;
mod moves;
mod off_page;

pub use around::{Corner, are_sides, corner_around, page_around};
pub use census::{Census, census_of};
pub use extent::{Extent, extent_of};
pub use moves::{are_movable, move_strokes};
pub use off_page::is_off_page;
