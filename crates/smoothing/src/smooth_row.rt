//! A row of smoothed pixels.
ghost use Rattle.std.specs.Prelude.{◌≡◌, ℕ, ◌+◌, ◌*◌, ◌^◌, ◌<◌, ◌≤◌, All, IfOk, [], length, map, get_or, false, true};
ghost use Rattle.std.specs.List.{range_with_len};
ghost use Rattle.smoothing.specs.Cells.{colours_of_cells};
ghost use Rattle.smoothing.specs.Smoothings.{smoothed};
ghost use Rattle.smoothing.specs.Totals.{AreWhite, AtLeast, HaveCells, HaveRows};
ghost use Rattle.smoothing.specs.declared.sums.Sums.{Sums};

use crate::finer_rows::FinerRows;
use crate::sums::{Sums, add_row, take_means};
use picture_out::Inks;
use std::alloc::{AllocError, Global};

/// The pixels of a row, each the mean of `times` by `times` pixels of a finer picture, and the sums that they are made by.
#[derive(Drop)]
pub struct SmoothRow {
    times: u32,
    sums: Vec<Sums>,
    pixels: Vec<[u8; 3]>,
    ghost least: { 1 ≤ times },
    ghost most: { times ≤ 8 },
    ghost same: { length sums.items ≡ length pixels.items },
    ghost few: { length sums.items < 2 ^ 32 },
    ghost white: { (k : ℕ) (d : Sums) → k < length sums.items → AreWhite times (get_or sums.items k d) },
}

impl SmoothRow {
    ghost use Rattle.smoothing.specs.Rows.{pixels_of, times_of, width_of};

    /// A row of so many pixels, each of `times` by `times` finer ones, 1 to 8.
    ///
    /// Errors: if the heap gives no memory.
    pub fn new(alloc: Global, times: u32, columns: u32) -> Result<SmoothRow, AllocError>
        requires least { 1 ≤ times }
        requires most { times ≤ 8 }
        ensures times { IfOk result (λ row. times_of row ≡ times) }
        ensures width { IfOk result (λ row. width_of row ≡ columns) }
    {
        let sums = vec![in alloc; Sums::white(times); columns as usize]?;
        let pixels = vec![in alloc; [255u8; 3]; columns as usize]?;
        Ok(SmoothRow {
            times,
            sums,
            pixels,
        })
    }

    /// The red, green and blue of each pixel.
    pub fn pixels(&self) -> &[[u8; 3]]
        ensures { result.now ≡ pixels_of self.now }
    {
        self.pixels.as_slice()
    }

    /// Makes the pixels from finer rows from the row `times * i` on, counted from 0. Rows past the last, and columns past the
    /// last, are white.
    pub fn smooth<R: FinerRows, I: Inks>(&mut self, rows: &R, i: u32, inks: &I)
        requires inks { All (λ row. All (λ cell. cell ≤ length (I.inks inks.now)) row) (R.finer rows.now) }
        requires place { i ≤ 4096 }
        ensures pixels { pixels_of self.new ≡ map (smoothed (times_of self.old)
            (colours_of_cells (I.inks inks.now) (R.finer rows.now)) i) (range_with_len 0 (width_of self.old)) }
        ensures times { times_of self.new ≡ times_of self.old }
        ensures width { width_of self.new ≡ width_of self.old }
    {
        add_rows(self.times, rows, i, inks, &mut self.sums);
        take_means(self.times, &mut self.sums, &mut self.pixels);
    }
}

// Puts finer rows from the row `times * i` on in the place of white ones, as far as there are any.
fn add_rows<R: FinerRows, I: Inks>(times: u32, rows: &R, i: u32, inks: &I, sums: &mut [Sums])
    requires inks { All (λ row. All (λ cell. cell ≤ length (I.inks inks.now)) row) (R.finer rows.now) }
    requires place { i ≤ 4096 }
    requires least { 1 ≤ times }
    requires most { times ≤ 8 }
    requires few { length sums.old < 2 ^ 32 }
    requires white { (k : ℕ) (d : Sums) → k < length sums.old → AreWhite times (get_or sums.old k d) }
    ensures size { length sums.new ≡ length sums.old }
    ensures rows { HaveRows times (colours_of_cells (I.inks inks.now) (R.finer rows.now)) i times sums.new }
{
    for k in 0..times {
        add_finer_row(rows, times * i + k, times, inks, sums);
    }
}

// The same of one row.
fn add_finer_row<R: FinerRows, I: Inks>(rows: &R, row: u32, times: u32, inks: &I, sums: &mut [Sums])
    requires inks { All (λ row. All (λ cell. cell ≤ length (I.inks inks.now)) row) (R.finer rows.now) }
    requires least { 1 ≤ times }
    requires most { times ≤ 8 }
    requires few { length sums.old < 2 ^ 32 }
    requires enough { (k : ℕ) (d : Sums) → k < length sums.old → AtLeast (255 * times) (get_or sums.old k d) }
    ensures size { length sums.new ≡ length sums.old }
    ensures cells { HaveCells (I.inks inks.now) (get_or (R.finer rows.now) row []) times sums.old sums.new }
{
    if row < rows.count() {
        let span = rows.columns(row);
        let cells = rows.cells(row);
        add_row(
            cells,
            span.low as usize,
            span.end as usize,
            times,
            inks,
            sums,
        );
    }
}
