//! The colours of a smoothed picture.
ghost use Rattle.std.specs.Prelude.{◌≡◌, ◌+◌, ◌-◌, ◌<◌, ◌≤◌, All, IfOk, length, map, fold, true};
ghost use Rattle.std.specs.List.{flat_map, range_with_len};
ghost use Rattle.stroke_raster.specs.Bands.{rows_of_band};
ghost use Rattle.smoothing.specs.Cells.{colours_of_cells};
ghost use Rattle.smoothing.specs.Rows.{times_of, width_of};
ghost use Rattle.smoothing.specs.Smoothings.{smoothed};
ghost use Rattle.rows.specs.Inks.{inks_held};
ghost use Rattle.rows.specs.Known.{AreKnown};
ghost use Rattle.rows.specs.Palettes.{with_colour};
ghost use Rattle.rows.specs.Progress.{row_pixels, tests_left};

use crate::known::Known;
use crate::palette::{MOST_COLOURS, add_colour};
use crate::smooth_bands::SmoothBands;
use crate::smoother::Smoother;
use std::alloc::AllocError;
use stroke_raster::{Band, Gauge};

/// Paints all rows, and adds the colours of their pixels to these, in the order in which they first come, row by row.
/// Answers whether there was room for all.
///
/// Errors: if the heap gives no memory.
pub fn add_colours<G: Gauge>(
    bands: &mut SmoothBands<'_>,
    gauge: &mut G,
    colours: &mut Vec<[u8; 3]>,
) -> Result<bool, AllocError>
    requires some { 0 < length colours.old.items }
    requires few { length colours.old.items ≤ MOST_COLOURS }
    ensures few { length colours.new.items ≤ MOST_COLOURS }
    ensures colours { IfOk result (λ all. all ≡ true → colours.new.items ≡ fold with_colour colours.old.items
        (flat_map (row_pixels bands.old (G.reaches gauge.old)) (range_with_len bands.old.next (bands.old.end - bands.old.next)))) }
    ensures same { G.reaches gauge.new ≡ G.reaches gauge.old }
    ensures tests { G.count gauge.new ≤ G.count gauge.old + tests_left bands.old.painting }
{
    'each: while bands.has_row() {
        if !add_next(bands, gauge, colours)? {
            return Ok(false);
        }
    }
    Ok(true)
}

// The same of the next band.
fn add_next<G: Gauge>(
    bands: &mut SmoothBands<'_>,
    gauge: &mut G,
    colours: &mut Vec<[u8; 3]>,
) -> Result<bool, AllocError>
    requires left { bands.old.next < bands.old.end }
    requires some { 0 < length colours.old.items }
    requires few { length colours.old.items ≤ MOST_COLOURS }
    ensures more { 0 < length colours.new.items }
    ensures few { length colours.new.items ≤ MOST_COLOURS }
    ensures some { bands.old.next < bands.new.next }
    ensures within { bands.new.next ≤ bands.old.end }
    ensures end { bands.new.end ≡ bands.old.end }
    ensures pixels { row_pixels bands.new ≡ row_pixels bands.old }
    ensures colours { IfOk result (λ all. all ≡ true → colours.new.items ≡ fold with_colour colours.old.items
        (flat_map (row_pixels bands.old (G.reaches gauge.old)) (range_with_len bands.old.next (bands.new.next - bands.old.next)))) }
    ensures same { G.reaches gauge.new ≡ G.reaches gauge.old }
    ensures tests { G.count gauge.new + tests_left bands.new.painting ≤ G.count gauge.old + tests_left bands.old.painting }
{
    let count = bands.height.min(bands.end - bands.next);
    bands.next += count;
    match bands.painter.next_band(gauge) {
        Some(band) => add_rows(count, &band, &mut bands.smoother, colours),
        // Not reached, since each row has a finer one.
        None => Ok(true),
    }
}

// The same of so many smoothed rows of a band.
fn add_rows(
    count: u32,
    band: &Band<'_>,
    smoother: &mut Smoother<'_>,
    colours: &mut Vec<[u8; 3]>,
) -> Result<bool, AllocError>
    requires inks { All (λ row. All (λ cell. cell ≤ length (inks_held smoother.old.inks)) row) (rows_of_band band.now) }
    requires place { count ≤ 4096 }
    requires some { 0 < length colours.old.items }
    requires few { length colours.old.items ≤ MOST_COLOURS }
    ensures some { 0 < length colours.new.items }
    ensures few { length colours.new.items ≤ MOST_COLOURS }
    ensures colours { IfOk result (λ all. all ≡ true → colours.new.items ≡ fold with_colour colours.old.items
        (flat_map (λ k. map (smoothed (times_of smoother.old.pixels) (colours_of_cells (inks_held smoother.old.inks) (rows_of_band band.now)) k)
        (range_with_len 0 (width_of smoother.old.pixels))) (range_with_len 0 count))) }
    ensures inks { smoother.new.inks ≡ smoother.old.inks }
    ensures layout { smoother.new.layout ≡ smoother.old.layout }
    ensures times { times_of smoother.new.pixels ≡ times_of smoother.old.pixels }
    ensures width { width_of smoother.new.pixels ≡ width_of smoother.old.pixels }
{
    for i in 0..count {
        smoother.smooth(band, i);
        if !add_pixels(smoother.pixels.pixels(), colours)? {
            return Ok(false);
        }
    }
    Ok(true)
}

// The same of the pixels of a row.
fn add_pixels(pixels: &[[u8; 3]], colours: &mut Vec<[u8; 3]>) -> Result<bool, AllocError>
    requires some { 0 < length colours.old.items }
    requires few { length colours.old.items ≤ MOST_COLOURS }
    ensures some { 0 < length colours.new.items }
    ensures few { length colours.new.items ≤ MOST_COLOURS }
    ensures colours { IfOk result (λ all. all ≡ true → colours.new.items ≡ fold with_colour colours.old.items pixels.now) }
{
    let mut known = Known::first(colours[0]);
    for pixel in pixels {
        if !add_pixel(*pixel, colours, &mut known)? {
            return Ok(false);
        }
    }
    Ok(true)
}

// The same of a pixel, when some of the colours are known.
#[inline(always)]
fn add_pixel(
    pixel: [u8; 3],
    colours: &mut Vec<[u8; 3]>,
    known: &mut Known,
) -> Result<bool, AllocError>
    requires few { length colours.old.items ≤ MOST_COLOURS }
    requires known { AreKnown colours.old.items known.old }
    ensures kept { length colours.old.items ≤ length colours.new.items }
    ensures few { length colours.new.items ≤ MOST_COLOURS }
    ensures colour { IfOk result (λ all. all ≡ true → colours.new.items ≡ with_colour colours.old.items pixel) }
    ensures known { IfOk result (λ all. all ≡ true → AreKnown colours.new.items known.new) }
{
    if known.number_of(pixel).is_some() {
        return Ok(true);
    }
    match add_colour(pixel, colours)? {
        Some(number) => {
            known.keep(pixel, number);
            Ok(true)
        }
        None => Ok(false),
    }
}
