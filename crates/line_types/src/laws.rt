//! What holds of dashes.
ghost use Rattle.line_types.specs.Laws.{DashesStay};

/// The dashes of a line stay in every box that both its ends are in.
pub fn dashes_stay()
    ensures { DashesStay }
{}
