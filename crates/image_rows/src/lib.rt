//! Rows of raster images within a plot, as HP RTL compresses them: the bytes of one plane of a row.
#![tactic(auto)]

mod change;
mod compression;
mod ending;
pub mod laws;
mod numbers;
mod row;

pub use compression::{Compression, RowLength};
pub use ending::{Ending, RowFault};
pub use row::decode_row;
