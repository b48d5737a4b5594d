//! P1 and P2, and how SC scales the space between them, on one axis and on both.
use crate::pair::Pair;

/// P1 and P2 on an axis, in plotter units: P1 within 33,554,432 units of 0, and P2 apart from P1 by
/// at most as many.
#[derive(Clone, Copy, Debug)]
pub struct Ends {
    pub first: i64,
    pub last: i64,
}

/// The coordinates of P1 and P2 on an axis, in millionths: within 2^43 of 0, and not the same.
#[derive(Clone, Copy, Debug)]
pub struct Range {
    pub least: i64,
    pub most: i64,
}

/// A range whose units are to be as long as those of the other axis. Of the space that is left over
/// `share`, in millionths of a percent, 0 to 100,000,000, lies at P1's end: the left, or the bottom.
#[derive(Clone, Copy, Debug)]
pub struct FittedRange {
    pub range: Range,
    pub share: i64,
}

/// The coordinate of P1 on an axis and the plotter units that one unit takes, both in millionths and
/// within 2^43 of 0; the factor is not 0.
#[derive(Clone, Copy, Debug)]
pub struct Factor {
    pub least: i64,
    pub factor: i64,
}

/// What SC set: coordinates are plotter units, or user units of type 0, 1 or 2.
#[derive(Clone, Copy, Debug)]
pub enum Scaling {
    Off,
    Anisotropic(Pair<Range>),
    Isotropic(Pair<FittedRange>),
    PointFactor(Pair<Factor>),
}
