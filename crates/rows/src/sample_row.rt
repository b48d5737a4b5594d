//! The samples of a row of a PNG, and its bytes.
ghost use Rattle.std.specs.Prelude.{◌≡◌, ℕ, ◌+◌, ◌-◌, ◌*◌, ◌/◌, ◌^◌, ◌<◌, ◌≤◌, All, IfOk, length, map, get_or};
ghost use Rattle.png.specs.Headers.{bits_of_depth};
ghost use Rattle.png.specs.Packing.{packed_samples, per_byte};
ghost use Rattle.std.specs.List.{flat_map};
ghost use Rattle.png.specs.Headers.{HasColours, three};
ghost use Rattle.rows.specs.Palettes.{number_of, numbers_bytes};
ghost use Rattle.rows.specs.Known.{AreKnown};
ghost use Rattle.rows.specs.PixelRows.{HasSamples, layout_bytes, number_in, sample_count, sample_depth, samples_of};

use crate::buffer::buffer_of;
use crate::known::Known;
use crate::palette::position_of;
use png::{Depth, Layout, pack_samples};
use std::alloc::{AllocError, Global};

/// The samples of a row, numbers of a palette, shades of grey or channels, and the bytes that they are packed into. After the
/// last sample are zeros.
#[derive(Drop)]
pub struct SampleRow {
    pub(crate) depth: Depth,
    pub(crate) columns: usize,
    pub(crate) samples: Vec<u8>,
    pub(crate) bytes: Vec<u8>,
    ghost size: { length bytes.items ≡ numbers_bytes depth columns },
    ghost enough: { per_byte depth * length bytes.items ≤ length samples.items },
    ghost wide: { columns ≤ length samples.items },
    ghost blank: { (k : ℕ) → columns ≤ k → get_or samples.items k 0 ≡ 0 },
    ghost small: { All (λ sample. sample < 2 ^ bits_of_depth depth) samples.items },
}

impl SampleRow {
    /// A row of this many samples, all 0, each of which takes as many bits as the depth says.
    pub fn new(alloc: Global, depth: Depth, columns: usize) -> Result<SampleRow, AllocError>
        requires { columns < 2 ^ 32 }
        ensures depth { IfOk result (λ row. row.depth ≡ depth) }
        ensures columns { IfOk result (λ row. row.columns ≡ columns) }
    {
        let size = (columns * depth.bits() as usize).div_ceil(8);
        let samples = buffer_of(alloc, 8 * size)?;
        let bytes = buffer_of(alloc, size)?;
        Ok(SampleRow {
            depth,
            columns,
            samples,
            bytes,
        })
    }

    /// Packs the numbers of cells, which are all 0 before column `low` and from column `end` on.
    pub fn pack(&mut self, cells: &[u32], low: usize, end: usize, numbers: &[u8])
        requires columns { length cells.now ≡ self.old.columns }
        requires order { low ≤ end }
        requires high { end ≤ length cells.now }
        requires before { (k : ℕ) → k < length cells.now → k < low → get_or cells.now k 0 ≡ 0 }
        requires after { (k : ℕ) → k < length cells.now → end ≤ k → get_or cells.now k 0 ≡ 0 }
        requires numbered { All (λ cell. cell ≤ length numbers.now) cells.now }
        requires small { All (λ number. number < 2 ^ bits_of_depth self.old.depth) numbers.now }
        ensures bytes { self.new.bytes.items
            ≡ packed_samples self.old.depth (numbers_bytes self.old.depth self.old.columns) (map (number_of numbers.now) cells.now) }
        ensures depth { self.new.depth ≡ self.old.depth }
        ensures columns { self.new.columns ≡ self.old.columns }
    {
        put_numbers(cells, low, end, numbers, &mut self.samples);
        pack_samples(self.depth, &self.samples, &mut self.bytes);
    }

    /// Packs the samples of pixels, by their layout.
    pub fn pack_pixels(&mut self, layout: Layout<'_>, pixels: &[[u8; 3]])
        requires colours { HasColours layout }
        requires depth { self.old.depth ≡ sample_depth layout }
        requires columns { self.old.columns ≡ sample_count layout (length pixels.now) }
        ensures bytes { self.new.bytes.items ≡ layout_bytes layout.entry pixels.now }
        ensures depth { self.new.depth ≡ self.old.depth }
        ensures columns { self.new.columns ≡ self.old.columns }
    {
        put_samples(layout, pixels, &mut self.samples);
        pack_samples(self.depth, &self.samples, &mut self.bytes);
    }
}

// Writes the number of each cell into the samples, from the left, and leaves those after them as they were.
fn put_numbers(cells: &[u32], low: usize, end: usize, numbers: &[u8], samples: &mut [u8])
    requires order { low ≤ end }
    requires high { end ≤ length cells.now }
    requires before { (k : ℕ) → k < length cells.now → k < low → get_or cells.now k 0 ≡ 0 }
    requires after { (k : ℕ) → k < length cells.now → end ≤ k → get_or cells.now k 0 ≡ 0 }
    requires numbered { All (λ cell. cell ≤ length numbers.now) cells.now }
    requires room { length cells.now ≤ length samples.old }
    ensures size { length samples.new ≡ length samples.old }
    ensures numbers { (k : ℕ) → k < length cells.now → get_or samples.new k 0 ≡ number_of numbers.now (get_or cells.now k 0) }
    ensures others { (k : ℕ) → length cells.now ≤ k → get_or samples.new k 0 ≡ get_or samples.old k 0 }
{
    clear(samples, 0, low);
    clear(samples, end, cells.len());
    for column in low..end {
        samples[column] = number_of(cells[column], numbers);
    }
}

// Sets the samples from `from` up to `end` to 0.
fn clear(samples: &mut [u8], from: usize, end: usize)
    requires order { from ≤ end }
    requires high { end ≤ length samples.old }
    ensures size { length samples.new ≡ length samples.old }
    ensures inside { (k : ℕ) → from ≤ k → k < end → get_or samples.new k 0 ≡ 0 }
    ensures before { (k : ℕ) → k < from → get_or samples.new k 0 ≡ get_or samples.old k 0 }
    ensures after { (k : ℕ) → end ≤ k → get_or samples.new k 0 ≡ get_or samples.old k 0 }
{
    samples[from..end].fill(0);
}

// The number of a cell.
#[inline(always)]
fn number_of(cell: u32, numbers: &[u8]) -> u8
    requires { cell ≤ length numbers.now }
    ensures { result ≡ number_of numbers.now cell }
{
    if cell == 0 {
        0
    } else {
        numbers[cell as usize - 1]
    }
}

// Writes the samples of pixels from the left, and leaves those after them as they were.
fn put_samples(layout: Layout<'_>, pixels: &[[u8; 3]], samples: &mut [u8])
    requires colours { HasColours layout }
    requires room { sample_count layout (length pixels.now) ≤ length samples.old }
    ensures samples { HasSamples (samples_of layout.entry pixels.now) samples.old samples.new }
    ensures small { (k : ℕ) → k < sample_count layout.entry (length pixels.now) → get_or samples.new k 0 < 2 ^ bits_of_depth (sample_depth layout.entry) }
{
    match layout {
        Layout::Indexed { depth: _, palette } => put_places(palette, pixels, samples),
        Layout::Grey => put_greys(pixels, samples),
        Layout::Rgb => put_channels(pixels, samples),
    }
}

fn put_channels(pixels: &[[u8; 3]], samples: &mut [u8])
    requires room { 3 * length pixels.now ≤ length samples.old }
    ensures { HasSamples (flat_map three pixels.now) samples.old samples.new }
{
    for k in 0..3 * pixels.len() {
        samples[k] = pixels[k / 3][k % 3];
    }
}

fn put_greys(pixels: &[[u8; 3]], samples: &mut [u8])
    requires room { length pixels.now ≤ length samples.old }
    ensures { HasSamples (map (λ pixel. get_or pixel 0 0) pixels.now) samples.old samples.new }
{
    for k in 0..pixels.len() {
        samples[k] = pixels[k][0];
    }
}

// The same with the number of each pixel's colour in a palette.
fn put_places(palette: &[[u8; 3]], pixels: &[[u8; 3]], samples: &mut [u8])
    requires some { 0 < length palette.now }
    requires few { length palette.now ≤ 256 }
    requires room { length pixels.now ≤ length samples.old }
    ensures { HasSamples (map (number_in palette.now) pixels.now) samples.old samples.new }
{
    let mut known = Known::first(palette[0]);
    for k in 0..pixels.len() {
        samples[k] = number_in(palette, pixels[k], &mut known);
    }
}

// The number of a colour in a palette, of which some are known, or 0 if it is not there.
#[inline(always)]
fn number_in(palette: &[[u8; 3]], colour: [u8; 3], known: &mut Known) -> u8
    requires few { length palette.now ≤ 256 }
    requires known { AreKnown palette.now known.old }
    ensures number { result ≡ number_in palette.now colour }
    ensures known { AreKnown palette.now known.new }
{
    if let Some(number) = known.number_of(colour) {
        return number;
    }
    let number = position_of(palette, colour);
    if number < palette.len() {
        known.keep(colour, number as u8);
        number as u8
    } else {
        0
    }
}
