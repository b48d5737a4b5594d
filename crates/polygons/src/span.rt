//! The spans that fill polygons.
use crate::place::Place;

/// A part of a line that is inside polygons.
#[derive(Clone, Copy, Debug, PartialEq, Eq)]
pub struct Span {
    pub from: Place,
    pub to: Place,
}
