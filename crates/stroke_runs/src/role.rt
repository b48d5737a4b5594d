//! What a stroke is.

use polygons::Rule;

/// What a stroke that is drawn is.
#[derive(Clone, Copy, Debug, PartialEq, Eq)]
pub enum Role {
    /// A shape by itself.
    Stroke,
    /// The first edge of an area, which is filled by this rule.
    FirstEdge(Rule),
    /// Another edge of the same area.
    NextEdge,
}
