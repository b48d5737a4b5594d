//! Points and strokes on the grid of a character.

/// A straight line of a character, from (`ax`, `ay`) to (`bx`, `by`) on its grid: x is 0 to 4 from
/// left to right, y is 0 to 6 from the baseline up. A dot begins and ends at one point.
#[derive(Clone, Copy, Debug, PartialEq, Eq)]
pub struct GridStroke {
    pub ax: u8,
    pub ay: u8,
    pub bx: u8,
    pub by: u8,
}

/// A point of the grid.
#[derive(Clone, Copy)]
pub(crate) struct Point {
    pub(crate) x: u8,
    pub(crate) y: u8,
}
