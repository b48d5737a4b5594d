//! Tiles of images.

/// How many dots of a row a tile has at most.
pub const STRIP: u32 = 16_384;

/// How many rows a tile has at most: a PNG has no more.
pub const MOST_ROWS: u32 = 2_147_483_647;

/// How many dots of a row are shown at most: columns are numbers of 32 bits.
pub const MOST_DOTS: u64 = 4_294_967_295;

/// A part of an image: rows one after another, and columns.
#[derive(Clone, Copy)]
pub struct Tile {
    /// Where its first row is among those that were sent.
    pub position: usize,
    /// How many rows it has.
    pub rows: u32,
    /// Its first column.
    pub column: u32,
    /// How many columns it has, up to `STRIP`.
    pub columns: u32,
}
