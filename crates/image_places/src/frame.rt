//! The pens of frames.
ghost use Rattle.std.specs.Prelude.{◌≡◌, true};
ghost use Rattle.plot_page.specs.Pens.{has_pen};

use plot_page::{PenSet, Stroke};

/// The set of the pen of a frame.
pub(crate) fn pen_of(frame: &Stroke) -> PenSet
    ensures { has_pen result frame.now.pen ≡ true }
{
    PenSet::none().with(frame.pen)
}
