//! Smoothed rows of a picture: each pixel is the mean of finer pixels.
#![tactic(auto)]

mod finer_rows;
mod smooth_row;
mod sums;

pub use finer_rows::{CellRows, FinerRows};
pub use smooth_row::SmoothRow;
