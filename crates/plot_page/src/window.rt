//! Windows: the part of a page in which strokes are seen.

/// The places between two corners, its edges included, in grains from the page's lower left
/// corner. If `x1` is below `x0` or `y1` below `y0`, it holds no place.
#[derive(Clone, Copy, Debug, PartialEq, Eq)]
pub struct Window {
    pub x0: i32,
    pub y0: i32,
    pub x1: i32,
    pub y1: i32,
}
