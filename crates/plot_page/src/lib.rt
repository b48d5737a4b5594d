//! Pages, their resolutions, sets of pens and strokes: what a plot is drawn into, and what is painted.
#![tactic(auto)]

mod colour;
mod dots;
mod page;
mod pens;
mod stroke;
mod window;

pub use colour::Colour;
pub use dots::{Dots, MOST_PIXELS_A_SIDE};
pub use page::{FARTHEST_CORNER, LONGEST_ROLL, LONGEST_SIDE, Page, PageFault, SHORTEST_SIDE};
pub use pens::PenSet;
pub use stroke::{
    FARTHEST_EDGE, FARTHEST_END, FARTHEST_PLACE, GREATEST_WIDTH, MOST_STROKES, Stroke,
};
pub use window::Window;
