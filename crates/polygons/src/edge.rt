//! The edges of polygons.
use crate::place::Place;

/// An edge of a polygon, in the direction in which the pen moved.
#[derive(Clone, Copy, Debug, PartialEq, Eq)]
pub struct Edge {
    pub from: Place,
    pub to: Place,
    /// Whether the outline is drawn there.
    pub is_drawn: bool,
}
