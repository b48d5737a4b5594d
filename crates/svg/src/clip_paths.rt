//! What the strokes of a document are clipped to.
ghost use Rattle.std.specs.Prelude.{◌≤◌, length};
ghost use Rattle.plot_page.specs.declared.stroke.TheConstants.{MOST_STROKES};

use crate::places::Rectangle;
use std::collections::BTreeSet;

/// What the strokes of a document are clipped to: the windows other than the page, each once.
#[derive(Drop)]
pub struct ClipPaths {
    pub(crate) rectangles: BTreeSet<Rectangle>,
    ghost few: { length rectangles.keys ≤ MOST_STROKES },
}
