//! Areas among the strokes of a plot.

use polygons::Rule;

/// An area, which is painted inside and along its edges: these are the strokes of a list after the first `first`, up to and
/// including number `end`.
#[derive(Clone, Copy, Debug, PartialEq, Eq)]
pub struct Area {
    pub first: usize,
    pub end: usize,
    /// Which places between its edges are inside.
    pub rule: Rule,
}
