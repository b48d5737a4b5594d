//! What a picture shows of a drawing.
ghost use Rattle.std.specs.Prelude.{◌≤◌, length};
ghost use Rattle.plot_page.specs.declared.stroke.TheConstants.{MOST_STROKES};

use crate::place::Drawing;
use picture_job::PageChoice;
use rows::Contents;

/// What a picture shows of a drawing, and how the page was chosen.
#[derive(Clone, Copy)]
pub(crate) struct Shown<'a> {
    pub(crate) drawing: &'a Drawing,
    pub(crate) contents: Contents<'a>,
    pub(crate) choice: PageChoice,
    pub(crate) ghost few: { length contents.shapes.strokes.now ≤ MOST_STROKES },
}
