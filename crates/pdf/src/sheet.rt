//! A sheet of a document.
ghost use Rattle.std.specs.Prelude.{◌+◌, ◌^◌, ◌<◌, length};

use areas::Areas;
use labels::Label;
use plot_page::{Page, PenSet, Stroke};

/// What a page shows: strokes, some of which are the edges of areas, and labels. The areas count strokes from `from` strokes
/// before these on, the labels from `earlier` strokes before that.
#[derive(Clone, Copy)]
pub(crate) struct Sheet<'a> {
    pub page: &'a Page,
    pub pens: &'a PenSet,
    pub strokes: &'a [Stroke],
    pub areas: Areas<'a>,
    pub labels: &'a [Label],
    pub earlier: usize,
    pub from: usize,
    ghost few: { from + length strokes.now < 2 ^ 64 },
}
