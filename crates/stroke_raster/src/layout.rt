//! The layout of a band as bits.

/// Where the rows of a band lie in its bytes.
#[derive(Clone, Copy, Debug)]
pub struct Layout {
    /// The number of the first row, counted from the top of the page.
    pub first: u32,
    /// How many rows there are.
    pub rows: u32,
    /// How many bytes a row has.
    pub stride: u32,
}
