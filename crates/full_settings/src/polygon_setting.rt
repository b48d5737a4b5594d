//! What the instructions of polygons ask for.
use crate::points::Point;

/// What PM (Polygon Mode) asks for.
#[derive(Clone, Copy, Debug, PartialEq, Eq)]
pub enum PolygonStep {
    /// PM 0: polygon mode begins with an empty buffer.
    Begin,
    /// PM 1: the polygon is closed.
    Close,
    /// PM 2: the same, and polygon mode ends.
    End,
}

/// What AC (Anchor Corner) sets: the point that a line of hatching goes through.
#[derive(Clone, Copy, Debug)]
pub enum Anchor {
    /// The lower left corner of the page.
    PageOrigin,
    /// The place of these coordinates.
    At(Point),
}

/// What EW (Edge Wedge) and WG (Fill Wedge) ask for: a wedge about the pen. The radius is in millionths of
/// the current unit. The start is 0 to 359,999 thousandths of a degree, the sweep -360,000 to 360,000,
/// counterclockwise if it is above 0, and the angle of a chord 500 to 180,000.
#[derive(Clone, Copy, Debug)]
pub struct Wedge {
    pub radius: i64,
    pub start: u32,
    pub sweep: i32,
    pub chord: u32,
}
