//! What holds of directions.
ghost use Rattle.directions.specs.Laws.{UnitsAreNearest, AxesAreExact};

/// Each coordinate of the direction of (u, v), both within 2^31 of 0, is the whole number nearest to
/// 2^30 * u / length or 2^30 * v / length.
pub fn units_are_nearest()
    ensures { UnitsAreNearest }
{}

/// Along an axis a direction is exact, however long the vector is, and an offset that follows it is
/// turned by quarters, with nothing rounded.
pub fn axes_are_exact()
    ensures { AxesAreExact }
{}
