//! Areas: which strokes are their edges, which places are inside them, and which columns of a row of pixels.
#![tactic(auto)]

mod among;
mod area;
mod crossing;
pub mod laws;
mod range;
mod shapes;
mod sweep;
mod swept_edge;
mod walk;

pub use among::{Areas, keep_areas};
pub use area::Area;
pub use range::ColumnRange;
pub use shapes::Shapes;
pub use sweep::AreaSweep;
pub use walk::{NextShape, ShapeWalk};
