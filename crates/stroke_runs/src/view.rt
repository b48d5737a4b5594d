//! What a vector document shows.

use areas::Areas;
use labels::Label;
use page_images::PageImages;
use plot_page::{Page, PenSet, Stroke};

/// What a vector document shows: on a page, the strokes of the selected pens of a sheet or of several, some of which are the
/// edges of areas, the texts of their labels, and the images among them. The labels count their strokes from `before` strokes
/// before these on.
#[derive(Clone, Copy)]
pub struct SheetView<'a> {
    pub page: &'a Page,
    pub pens: &'a PenSet,
    pub strokes: &'a [Stroke],
    pub areas: Areas<'a>,
    pub labels: &'a [Label],
    pub before: usize,
    pub images: PageImages<'a>,
}
