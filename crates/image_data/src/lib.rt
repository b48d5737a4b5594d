//! Images of a plot as PNG, in base64, as they stand in a text.
#![tactic(auto)]

mod chunks;
pub mod laws;
mod letters;
mod png;
mod rows;
mod sums;
mod tile;
mod tiles;
mod waiting;

pub use png::put_png;
pub use tile::{STRIP, Tile};
pub use tiles::{band_rows, begins, strip_count, tile_of};
