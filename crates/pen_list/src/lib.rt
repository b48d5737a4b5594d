//! Lists of pens as text, such as `1,3,5-7`, and of their colours and widths, such as `2=red,3-7=0.5`.
#![tactic(auto)]

mod assignment;
mod carousels;
mod colour;
mod list;
mod number;
mod range;
mod width;

pub use carousels::{read_colours, read_widths};
pub use list::read_pens;
