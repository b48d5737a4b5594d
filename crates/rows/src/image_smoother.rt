//! Rows of smoothed pixels with images, and their bytes.
ghost use Rattle.std.specs.Prelude.{◌≡◌, ℕ, [], ◌+◌, ◌-◌, ◌*◌, ◌<◌, ◌≤◌, ◌^◌, All, IfOk, length, get_or, map, min};
ghost use Rattle.std.specs.List.{range_with_len};
ghost use Rattle.plot_page.specs.declared.stroke.TheConstants.{MOST_STROKES};
ghost use Rattle.plot_page.specs.Resolutions.{columns_of, rows_of};
ghost use Rattle.page_images.specs.Views.{images_in};
ghost use Rattle.image_raster.specs.Cells.{AreCells};
ghost use Rattle.stroke_raster.specs.Bands.{first_of, rows_of_band};
ghost use Rattle.smoothing.specs.Cells.{cells_of, colours_of_cells};
ghost use Rattle.smoothing.specs.Rows.{times_of, width_of};
ghost use Rattle.smoothing.specs.Smoothings.{smoothed};
ghost use Rattle.png.specs.declared.header.Layout.TheVariants.{Rgb};
ghost use Rattle.rows.specs.ImageCells.{with_images};
ghost use Rattle.rows.specs.Inks.{image_inks_held};
ghost use Rattle.rows.specs.PixelRows.{layout_bytes, sample_count, sample_depth};
ghost use Rattle.rows.specs.Progress.{band_with_images};

use crate::cell_row::paint_over;
use crate::image_inks::ImageInks;
use crate::sample_row::SampleRow;
use page_images::PageImages;
use plot_page::{Dots, Page};
use png::{Depth, Layout};
use smoothing::{CellRows, SmoothRow};
use std::alloc::{AllocError, Global};
use stroke_raster::Band;

/// The images of a page, and where they are painted: its size and its finer resolution.
#[derive(Clone, Copy)]
pub struct Sheet<'a> {
    pub images: PageImages<'a>,
    pub page: Page,
    pub dots: Dots,
}

/// What makes rows of smoothed pixels, and their bytes, from the rows of bands with images over them.
#[derive(Drop)]
pub struct ImageSmoother<'a> {
    pub(crate) sheet: Sheet<'a>,
    pub(crate) inks: ImageInks<'a>,
    pub(crate) times: u32,
    pub(crate) rows: Vec<Vec<u32>>,
    pub(crate) pixels: SmoothRow,
    pub(crate) row: SampleRow,
    ghost depth: { row.depth ≡ sample_depth Rgb },
    ghost samples: { row.columns ≡ sample_count Rgb (width_of pixels) },
    ghost most: { times ≤ 8 },
    ghost same: { times_of pixels ≡ times },
    ghost enough: { length rows.items ≡ times },
    ghost wide: { (k : ℕ) → k < length rows.items → length (get_or (cells_of rows.items) k []) ≡ columns_of sheet.page sheet.dots },
}

impl<'a> ImageSmoother<'a> {
    /// One of rows of so many pixels, each of `times` by `times` finer ones.
    ///
    /// Errors: if the heap gives no memory.
    pub fn new(
        alloc: Global,
        sheet: Sheet<'a>,
        inks: ImageInks<'a>,
        times: u32,
        columns: u32,
    ) -> Result<ImageSmoother<'a>, AllocError>
        requires least { 1 ≤ times }
        requires most { times ≤ 8 }
        requires narrow { columns < 2 ^ 24 }
        ensures sheet { IfOk result (λ s. s.sheet ≡ sheet.entry) }
        ensures inks { IfOk result (λ s. s.inks ≡ inks.entry) }
        ensures times { IfOk result (λ s. times_of s.pixels ≡ times) }
        ensures width { IfOk result (λ s. width_of s.pixels ≡ columns) }
    {
        let pixels = SmoothRow::new(alloc, times, columns)?;
        let row = SampleRow::new(alloc, Depth::Eight, 3 * columns as usize)?;
        let finer = sheet.dots.columns(&sheet.page) as usize;
        let rows = blank_rows(alloc, times, finer)?;
        Ok(ImageSmoother {
            sheet,
            inks,
            times,
            rows,
            pixels,
            row,
        })
    }

    /// Makes the pixels whose first finer row is the row `times * i` of a band, and packs them.
    pub fn make(&mut self, band: &Band<'_>, i: u32)
        requires wide { All (λ row. length row ≡ columns_of self.old.sheet.page self.old.sheet.dots) (rows_of_band band.now) }
        requires positions { All (λ row. All (λ cell. cell ≤ MOST_STROKES) row) (rows_of_band band.now) }
        requires on_page { first_of band.now + length (rows_of_band band.now) ≤ rows_of self.old.sheet.page self.old.sheet.dots }
        requires place { i ≤ 4096 }
        ensures bytes { self.new.row.bytes.items ≡ layout_bytes Rgb (map (smoothed (times_of self.old.pixels)
            (colours_of_cells (image_inks_held self.old.inks) (band_with_images (images_in self.old.sheet.images) self.old.sheet.page
            self.old.sheet.dots (first_of band.now) (rows_of_band band.now))) i) (range_with_len 0 (width_of self.old.pixels))) }
        ensures sheet { self.new.sheet ≡ self.old.sheet }
        ensures inks { self.new.inks ≡ self.old.inks }
        ensures times { times_of self.new.pixels ≡ times_of self.old.pixels }
        ensures width { width_of self.new.pixels ≡ width_of self.old.pixels }
    {
        let count = paint_rows(self.sheet, band, self.times * i, self.rows.as_mut_slice());
        let rows = CellRows {
            rows: self.rows.as_slice(),
            count,
        };
        self.pixels.smooth(&rows, 0, &self.inks);
        self.row.pack_pixels(Layout::Rgb, self.pixels.pixels());
    }
}

// So many rows of so many cells.
fn blank_rows(alloc: Global, count: u32, columns: usize) -> Result<Vec<Vec<u32>>, AllocError>
    ensures count { IfOk result (λ rows. length rows.items ≡ count) }
    ensures wide { IfOk result (λ rows. (k : ℕ) → k < length rows.items → length (get_or (cells_of rows.items) k []) ≡ columns) }
{
    let mut rows = Vec::new(alloc);
    for _ in 0..count {
        rows.push(vec![in alloc; 0u32; columns]?)?;
    }
    Ok(rows)
}

// Copies the rows of a band from one on, as many as there are, and paints images over them. Answers how many there are.
fn paint_rows(sheet: Sheet<'_>, band: &Band<'_>, from: u32, rows: &mut [Vec<u32>]) -> u32
    requires few { length rows.old ≤ 8 }
    requires from_in { from ≤ 32768 }
    requires room { (k : ℕ) → k < length rows.old → length (get_or (cells_of rows.old) k []) ≡ columns_of sheet.page sheet.dots }
    requires wide { All (λ row. length row ≡ columns_of sheet.page sheet.dots) (rows_of_band band.now) }
    requires positions { All (λ row. All (λ cell. cell ≤ MOST_STROKES) row) (rows_of_band band.now) }
    requires on_page { first_of band.now + length (rows_of_band band.now) ≤ rows_of sheet.page sheet.dots }
    ensures count { result ≡ min (length rows.old) (length (rows_of_band band.now) - from) }
    ensures size { length rows.new ≡ length rows.old }
    ensures same { (k : ℕ) → k < length rows.new → length (get_or (cells_of rows.new) k []) ≡ columns_of sheet.entry.page sheet.entry.dots }
    ensures painted { (k : ℕ) → k < result → get_or (cells_of rows.new) k [] ≡ with_images (images_in sheet.entry.images) sheet.entry.page sheet.entry.dots
        (first_of band.now + (from + k)) (get_or (rows_of_band band.now) (from + k) []) }
    ensures small { (k : ℕ) → k < result → AreCells (get_or (cells_of rows.new) k []) }
{
    let count = (rows.len() as u32).min(band.rows().saturating_sub(from));
    for k in 0..count {
        let row = band.row(from + k);
        let painted = rows[k as usize].as_mut_slice();
        paint_over(
            sheet.images,
            &sheet.page,
            sheet.dots,
            band.first() + (from + k),
            row,
            painted,
        );
    }
    count
}
