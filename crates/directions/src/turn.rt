//! Turns.

/// A turn counterclockwise by 0, 90, 180 or 270 degrees.
#[derive(Clone, Copy, Debug, PartialEq, Eq)]
pub enum Turn {
    None,
    Quarter,
    Half,
    ThreeQuarters,
}
