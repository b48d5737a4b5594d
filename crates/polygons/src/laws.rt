//! What holds of polygons and of what fills them. The functions do nothing; their contracts are laws.
ghost use Rattle.polygons.specs.Laws.{BuffersHoldPolygons, FillsAreSolid, FillsStay};

/// A buffer's edges are those of closed sub-polygons, and then those of the open one: each edge begins
/// where the one before it ends, and the last edge of a closed sub-polygon ends where its first begins.
pub fn buffers_hold_polygons()
    ensures { BuffersHoldPolygons }
{}

/// No place inside polygons is left out: a place of a line with an odd number of crossings of lower
/// rank (or, by winding, not as many upward as downward ones) and none of its own is in a span of that
/// line.
pub fn fills_are_solid()
    ensures { FillsAreSolid }
{}

/// Nothing far outside polygons is filled: what fills them stays in each box that their edges are in.
pub fn fills_stay()
    ensures { FillsStay }
{}
