//! Images over rows of cells.
ghost use Rattle.std.specs.Prelude.{◌≡◌, ◌≤◌, ◌<◌, ◌+◌, ◌^◌, length, get_or};
ghost use Rattle.page_images.specs.Views.{images_in};
ghost use Rattle.plot_page.specs.Resolutions.{columns_of, rows_of};
ghost use Rattle.image_raster.specs.Placed.{shape};
ghost use Rattle.image_raster.specs.Cells.{mark_of, is_over, covered, AreCells, AreWith, AreWithOne};

use crate::placed::PlacedImage;
use image_colours::Colour;
use page_images::PageImages;
use plot_page::{Dots, Page};

// The least mark of a colour: above the positions of all strokes.
const LEAST_MARK: u32 = 2_147_483_648;

/// The mark of a colour, which a cell has if its pixel shows an image.
pub fn mark_of(colour: Colour) -> u32
    ensures mark { result ≡ mark_of colour }
    ensures small { result < 2 ^ 31 + 2 ^ 24 }
{
    LEAST_MARK
        + ((u32::from(colour.red) * 256 + u32::from(colour.green)) * 256 + u32::from(colour.blue))
}

/// Paints the images of a sheet, in their order, over the cells of a row of pixels from column 0 on: each where it shows a
/// colour, over the strokes that were drawn before it.
pub fn paint_images(images: PageImages<'_>, page: &Page, dots: Dots, row: u32, cells: &mut [u32])
    requires row_in { row < rows_of page.now dots }
    requires columns_in { length cells.old ≤ columns_of page.now dots }
    ensures with { AreWith (images_in images.entry) page.now dots row cells.old cells.new }
    ensures cells { AreCells cells.old → AreCells cells.new }
{
    for image in images.list {
        let placed = PlacedImage::new(image, images.first);
        placed.paint(page, dots, row, cells);
    }
}

impl<'a> PlacedImage<'a> {
    // Paints it over the cells of a row.
    fn paint(&self, page: &Page, dots: Dots, row: u32, cells: &mut [u32])
        requires row_in { row < rows_of page.now dots }
        requires columns_in { length cells.old ≤ columns_of page.now dots }
        ensures with { AreWithOne (shape self.now) page.now dots row cells.old cells.new }
        ensures cells { AreCells cells.old → AreCells cells.new }
    {
        if self.misses(page, dots, row) {
            return;
        }
        let reached = self.columns_reached(dots, cells.len() as u32);
        for column in reached.low..reached.end {
            let shown = self.shown_at_pixel(page, dots, row, column);
            let at = column as usize;
            cells[at] = covered(self.before, shown, cells[at]);
        }
    }
}

// A cell, over which an image may show a colour.
fn covered(before: u32, shown: Option<Colour>, cell: u32) -> u32
    ensures cell { result ≡ covered before shown cell }
    ensures small { cell < 2 ^ 31 + 2 ^ 24 → result < 2 ^ 31 + 2 ^ 24 }
{
    match shown {
        Some(colour) if is_over(before, cell) => mark_of(colour),
        _ => cell,
    }
}

// Whether an image, before which so many strokes were drawn, lies over what a cell shows.
fn is_over(before: u32, cell: u32) -> bool
    ensures { result ≡ is_over before cell }
{
    cell <= before || cell >= LEAST_MARK
}
