//! Frames: from the coordinates of a plot to places on its page, on one axis, and back, for every
//! kind of scaling.
#![tactic(auto)]

mod axis;
pub mod laws;
mod lines;
mod pair;
mod scaling;
mod sides;

pub use axis::Axis;
pub use lines::{axis_of, unscaled_axis};
pub use pair::{AxisName, Pair};
pub use scaling::{Ends, Factor, FittedRange, Range, Scaling};
