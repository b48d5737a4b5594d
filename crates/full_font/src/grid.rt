//! Points and strokes on the grid of a character.

/// A straight line of a character, from (`ax`, `ay`) to (`bx`, `by`) on its grid: x is 0 to 4 from
/// left to right, y is -2 to 8 upward, and the baseline is 0. A dot begins and ends at one point.
#[derive(Clone, Copy, Debug, PartialEq, Eq)]
pub struct GlyphStroke {
    pub ax: u8,
    pub ay: i8,
    pub bx: u8,
    pub by: i8,
}

/// A point of the grid.
#[derive(Clone, Copy)]
pub(crate) struct Point {
    pub(crate) x: u8,
    pub(crate) y: i8,
}
