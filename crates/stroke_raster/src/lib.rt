//! From strokes to pixels: which stroke each pixel of a page shows.
//!
//! Each test is a comparison of whole numbers, and so exact, however far a stroke leads. Those of a stroke of at
//! most 3.2 m in x and in y are made in 64 bits, but for two comparisons; those of a longer one in 128 bits.
#![tactic(auto)]

mod band;
mod beside;
mod bits;
mod canvas;
mod cell_painter;
mod cells;
mod edges;
mod extent;
mod far;
mod fill;
mod gauge;
mod ink;
mod inker;
pub mod laws;
mod layout;
mod marks;
mod nearness;
mod painter;
mod pixel;
mod placed_area;
mod run;
mod scan;
mod scene;
mod short;
mod slope;
mod strip;
mod trace;
mod vector;
mod walk;

pub use band::Band;
pub use bits::Bits;
pub use canvas::Canvas;
pub use cell_painter::Painter;
pub use cells::Cells;
pub use gauge::{Exact, Gauge};
pub use inker::Inker;
pub use layout::Layout;
pub use marks::Marks;
pub use nearness::near;
pub use painter::{BandPainter, PaintFault};
pub use pixel::{centre_of, is_between};
pub use short::Short;
pub use slope::{Inverse, Slope};
pub use strip::Span;
pub use trace::Trace;
pub use vector::Vector;
