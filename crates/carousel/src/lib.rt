//! The colours and the widths of pens that the user says, and not the plot.
#![tactic(auto)]

mod carousel;

pub use carousel::Carousel;
pub use plot_page::{Colour, GREATEST_WIDTH};
