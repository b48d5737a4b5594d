//! A row of smoothed pixels, and its bytes.
ghost use Rattle.std.specs.Prelude.{◌≡◌, ℕ, ◌<◌, ◌≤◌, ◌^◌, All, IfOk, length, map};
ghost use Rattle.std.specs.List.{range_with_len};
ghost use Rattle.stroke_raster.specs.Bands.{rows_of_band};
ghost use Rattle.smoothing.specs.Cells.{colours_of_cells};
ghost use Rattle.smoothing.specs.Rows.{pixels_of, times_of, width_of};
ghost use Rattle.smoothing.specs.Smoothings.{smoothed};
ghost use Rattle.png.specs.Headers.{HasColours};
ghost use Rattle.rows.specs.Inks.{inks_held};
ghost use Rattle.rows.specs.PixelRows.{layout_bytes, sample_count, sample_depth};

use crate::sample_row::SampleRow;
use crate::stroke_inks::StrokeInks;
use png::{Depth, Layout};
use smoothing::SmoothRow;
use std::alloc::{AllocError, Global};
use stroke_raster::Band;

/// What makes rows of smoothed pixels, and their bytes in a layout, from the rows of bands.
#[derive(Drop)]
pub struct Smoother<'a> {
    pub(crate) inks: StrokeInks<'a>,
    pub(crate) pixels: SmoothRow,
    pub(crate) layout: Layout<'a>,
    pub(crate) row: SampleRow,
    ghost depth: { row.depth ≡ sample_depth layout },
    ghost samples: { row.columns ≡ sample_count layout (width_of pixels) },
}

impl<'a> Smoother<'a> {
    /// One of rows of so many pixels, each of `times` by `times` finer ones.
    ///
    /// Errors: if the heap gives no memory.
    pub fn new(
        alloc: Global,
        inks: StrokeInks<'a>,
        layout: Layout<'a>,
        times: u32,
        columns: u32,
    ) -> Result<Smoother<'a>, AllocError>
        requires least { 1 ≤ times }
        requires most { times ≤ 8 }
        requires narrow { columns < 2 ^ 24 }
        ensures inks { IfOk result (λ s. inks_held s.inks ≡ inks_held inks.entry) }
        ensures layout { IfOk result (λ s. s.layout ≡ layout.entry) }
        ensures times { IfOk result (λ s. times_of s.pixels ≡ times) }
        ensures width { IfOk result (λ s. width_of s.pixels ≡ columns) }
    {
        let pixels = SmoothRow::new(alloc, times, columns)?;
        let row = SampleRow::new(alloc, depth_of(layout), count_of(layout, columns))?;
        Ok(Smoother {
            inks,
            pixels,
            layout,
            row,
        })
    }

    /// Makes the pixels whose first finer row is the row `times * i` of a band.
    pub fn smooth(&mut self, band: &Band<'_>, i: u32)
        requires inks { All (λ row. All (λ cell. cell ≤ length (inks_held self.old.inks)) row) (rows_of_band band.now) }
        requires place { i ≤ 4096 }
        ensures pixels { pixels_of self.new.pixels ≡ map (smoothed (times_of self.old.pixels)
            (colours_of_cells (inks_held self.old.inks) (rows_of_band band.now)) i) (range_with_len 0 (width_of self.old.pixels)) }
        ensures inks { self.new.inks ≡ self.old.inks }
        ensures layout { self.new.layout ≡ self.old.layout }
        ensures times { times_of self.new.pixels ≡ times_of self.old.pixels }
        ensures width { width_of self.new.pixels ≡ width_of self.old.pixels }
    {
        self.pixels.smooth(band, i, &self.inks);
    }

    /// Makes them, and packs them.
    pub fn make(&mut self, band: &Band<'_>, i: u32)
        requires colours { HasColours self.old.layout }
        requires inks { All (λ row. All (λ cell. cell ≤ length (inks_held self.old.inks)) row) (rows_of_band band.now) }
        requires place { i ≤ 4096 }
        ensures bytes { self.new.row.bytes.items ≡ layout_bytes self.old.layout (map (smoothed (times_of self.old.pixels)
            (colours_of_cells (inks_held self.old.inks) (rows_of_band band.now)) i) (range_with_len 0 (width_of self.old.pixels))) }
        ensures inks { self.new.inks ≡ self.old.inks }
        ensures layout { self.new.layout ≡ self.old.layout }
        ensures times { times_of self.new.pixels ≡ times_of self.old.pixels }
        ensures width { width_of self.new.pixels ≡ width_of self.old.pixels }
    {
        self.smooth(band, i);
        self.row.pack_pixels(self.layout, self.pixels.pixels());
    }
}

// How many bits a sample of a layout takes.
fn depth_of(layout: Layout<'_>) -> Depth
    ensures { result ≡ sample_depth layout.entry }
{
    match layout {
        Layout::Indexed { depth, palette: _ } => depth,
        Layout::Grey | Layout::Rgb => Depth::Eight,
    }
}

// How many samples the pixels of a row have.
fn count_of(layout: Layout<'_>, columns: u32) -> usize
    requires { columns < 2 ^ 24 }
    ensures { result ≡ sample_count layout.entry columns }
{
    match layout {
        Layout::Indexed { .. } | Layout::Grey => columns as usize,
        Layout::Rgb => 3 * columns as usize,
    }
}
