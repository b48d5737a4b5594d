//! Points of a plane.

/// A point or a vector, in a unit that its user names: millionths of the current unit, plotter units,
/// grains of 1/16 plotter unit, or parts of a character's size.
#[derive(Clone, Copy, Debug, PartialEq, Eq)]
pub struct Spot {
    pub x: i128,
    pub y: i128,
}
