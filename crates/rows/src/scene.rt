//! Shapes, and how they are shown.
ghost use Rattle.std.specs.Prelude.{◌≤◌, length};
ghost use Rattle.plot_page.specs.declared.stroke.TheConstants.{MOST_STROKES};

use areas::Shapes;
use plot_page::{Dots, Page, PenSet};

/// Strokes and areas on a page, of which those of the selected pens are shown, at a resolution.
#[derive(Clone, Copy)]
pub struct Scene<'a> {
    pub shapes: Shapes<'a>,
    pub page: Page,
    pub dots: Dots,
    pub pens: PenSet,
    pub ghost few: { length shapes.strokes.now ≤ MOST_STROKES },
}
