//! The patterns of line types, and the dashes that they make of a line. Places are in grains, and
//! lengths in ticks of 1/256 grain.
#![tactic(auto)]

mod dashes;
mod distances;
pub mod laws;
mod length;
mod line;
mod line_type;
mod nearest;
mod pattern;
mod repeated;
mod run;

pub use dashes::Dashes;
pub use length::{Length, diagonal};
pub use line::Line;
pub use line_type::LineType;
pub use pattern::{MOST_GAPS, Pattern};
pub use run::Run;
