//! Polygons: the buffer that holds them, and the lines that fill them. Places are in grains of 1/16
//! plotter unit.
#![tactic(auto)]

mod buffer;
mod climb;
mod edge;
mod fill;
pub mod laws;
mod lines;
mod place;
mod ruling;
mod span;
mod spans;
mod sweep;
mod ways;

pub use buffer::{Buffer, Opened};
pub use edge::Edge;
pub use fill::{Fill, all_spans};
pub use lines::{Lines, Rule};
pub use place::Place;
pub use span::Span;
