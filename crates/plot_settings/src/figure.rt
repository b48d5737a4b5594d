//! Rectangles, circles and arcs, as the instructions ask for them.

/// What EA and ER ask for: the corner of a rectangle opposite the pen, in millionths of the current unit.
#[derive(Clone, Copy, Debug)]
pub struct Corner {
    pub x: i64,
    pub y: i64,
}

/// What CI asks for: the radius in millionths of the current unit, and the angle of a chord, 500 to
/// 180,000 thousandths of a degree.
#[derive(Clone, Copy, Debug)]
pub struct Circle {
    pub radius: i64,
    pub chord: u32,
}

/// What AA and AR ask for: the centre in millionths of the current unit, and in thousandths of a
/// degree the sweep, -360,000 to 360,000, and the angle of a chord, 500 to 180,000. A sweep above 0
/// is counterclockwise.
#[derive(Clone, Copy, Debug)]
pub struct Arc {
    pub x: i64,
    pub y: i64,
    pub sweep: i32,
    pub chord: u32,
}
