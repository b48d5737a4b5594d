//! Points of curves.
use hpgl_text::Number;

/// A point of a curve by its coordinates, in millionths of the current unit. They are those of the page,
/// or relative to the pen, as the instruction says.
#[derive(Clone, Copy, Debug)]
pub struct Point {
    pub x: Number,
    pub y: Number,
}

/// What AT (Absolute Arc Three Point) and RT (Relative Arc Three Point) ask for: a point on the way, and
/// the end.
#[derive(Clone, Copy, Debug)]
pub struct ArcPoints {
    pub through: Point,
    pub to: Point,
}

/// A curve of BZ (Bezier Absolute) or BR (Bezier Relative): two control points, and the end.
#[derive(Clone, Copy, Debug)]
pub struct CurvePoints {
    pub first: Point,
    pub second: Point,
    pub to: Point,
}
