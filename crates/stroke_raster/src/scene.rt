//! The scene that a painter paints.
ghost use Rattle.std.specs.Prelude.{◌≤◌, length};
ghost use Rattle.plot_page.specs.declared.stroke.TheConstants.{MOST_STROKES};

use areas::Areas;
use plot_page::{Dots, Page, PenSet, Stroke};

/// The strokes of a picture, each later one over the earlier ones, of which those of the selected
/// pens are drawn, and the areas among them; and how the rows of its page are split into bands: from the first row on,
/// `band_rows` at a time.
#[derive(Clone, Copy)]
pub struct Scene<'a> {
    pub strokes: &'a [Stroke],
    pub areas: Areas<'a>,
    pub page: Page,
    pub dots: Dots,
    pub pens: PenSet,
    pub first_row: u32,
    pub band_rows: u32,
    pub ghost few: { length strokes.now ≤ MOST_STROKES },
    pub ghost at_least: { 1 ≤ band_rows },
    pub ghost at_most: { band_rows ≤ 4096 },
}
