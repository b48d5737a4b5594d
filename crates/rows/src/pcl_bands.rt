//! Bands of bits, each row of which is written after the PCL command that transfers it.
ghost use Rattle.std.specs.Prelude.{◌≡◌, ℕ, List, ◌+◌, ◌-◌, ◌*◌, ◌^◌, ◌<◌, ◌≤◌, All, length, map, take, flat_map, IfOk, ⊤};
ghost use Rattle.plot_page.specs.Resolutions.{rows_of};
ghost use Rattle.picture_out.specs.declared.form.Form.TheVariants.{Pcl};
ghost use Rattle.picture_out.specs.declared.inks.Ink.{Ink};
ghost use Rattle.picture_out.specs.Pcl as pcl;
ghost use Rattle.bit_rows.specs.Bits.{packed};
ghost use Rattle.stroke_raster.specs.Rows.{split_rows};
ghost use Rattle.areas.specs.Views.{shapes_in};
ghost use Rattle.rows.specs.Pictures.{row_of_list};
ghost use Rattle.rows.specs.Boxes.{boxes_between};
ghost use Rattle.rows.specs.Progress.{painting_row, tests_left, WritesCells};

use crate::bands::{BIT_ROOM, Bands, height_within};
use crate::even_rows::write_rows;
use crate::scene::Scene;
use crate::writing::Broken;
use bit_rows::packed_length;
use devices::Sink;
use picture_out::pcl::{LONGEST_COMMAND, append_row};
use std::alloc::Global;
use std::marker::Model;
use stroke_raster::{Gauge, Inker, PaintFault};

/// An inker, and the text of a band.
#[derive(Drop)]
pub struct PclBands<'a> {
    inker: Inker<'a>,
    text: Vec<u8>,
}

// Rows of bits, of `stride` bytes each.
#[derive(Clone, Copy)]
struct BitRows<'a> {
    count: usize,
    stride: usize,
    bits: &'a [u8],
    ghost wide: { stride < 2 ^ 32 },
    ghost size: { length bits.now ≡ count * stride },
}

impl<'a> Model for PclBands<'a> {
    ghost use Rattle.std.specs.Prelude.{◌+◌, ◌*◌, ◌≤◌, length};
    ghost use Rattle.bit_rows.specs.Bits.{bytes_for};
    ghost use Rattle.plot_page.specs.Resolutions.{columns_of};
    ghost use Rattle.picture_out.specs.declared.pcl.TheConstants.{LONGEST_COMMAND};
    ghost use Rattle.stroke_raster.specs.Painting.{Painting};

    ghost Value = { Painting };

    ghost view = { λ p. p.inker };

    ghost invariant = { λ p.
        p.inker.band_rows * (bytes_for (columns_of p.inker.page p.inker.dots) + LONGEST_COMMAND) ≤ length p.text.items };
}

impl<'a> Bands<'a> for PclBands<'a> {
    type Ask = ();

    ghost can_begin = { λ _ _. ⊤ };

    ghost asked_text = { λ _ scene reaches row.
        row_of_list Pcl reaches scene.pens (shapes_in scene.shapes) scene.page scene.dots row };

    ghost asked_tests = { λ _ scene first end.
        boxes_between scene.pens scene.shapes.strokes.now scene.page scene.dots first end };

    ghost row_text = { λ p. painting_row Pcl p };

    ghost rows = { λ p. rows_of p.page p.dots };

    ghost next = { λ p. p.next };

    ghost end = { λ p. p.end };

    ghost height = { λ p. p.band_rows };

    ghost tests = { λ p. tests_left p };

    fn begin(
        alloc: Global,
        _ask: (),
        scene: Scene<'a>,
        band_rows: u32,
        first_row: u32,
        end_row: u32,
    ) -> Result<PclBands<'a>, PaintFault> {
        let size = packed_length(scene.dots.columns(&scene.page) as usize) as u32;
        let height = height_within(band_rows, size, BIT_ROOM);
        let mut inker = Inker::of_shapes(
            alloc,
            scene.shapes,
            scene.page,
            scene.dots,
            scene.pens,
            height,
            first_row,
        )?;
        inker.stop_at(end_row);
        let room = height as usize * (size as usize + LONGEST_COMMAND);
        let Ok(text) = vec![in alloc; 0u8; room] else {
            return Err(PaintFault::Memory);
        };
        Ok(PclBands { inker, text })
    }

    fn next_row(&self) -> u32 {
        self.inker.next_row()
    }

    fn end_row(&self) -> u32 {
        self.inker.end_row()
    }

    fn rows(&self) -> u32 {
        self.inker.rows()
    }

    fn write_next<G: Gauge, K: Sink>(
        &mut self,
        first: u32,
        done: u64,
        gauge: &mut G,
        sink: &mut K,
    ) -> Result<u64, Broken> {
        let at = self.inker.next_row();
        let stride = packed_length(self.inker.columns() as usize);
        self.inker.ink_next(gauge);
        let rows = BitRows {
            count: (self.inker.next_row() - at) as usize,
            stride,
            bits: self.inker.bytes(),
        };
        put_rows(first, at, rows, done, &mut self.text, sink)
    }
}

// Writes as PCL rows these rows of bits after `done` bytes, by way of a text, and answers how many bytes there are then. Row
// `first` is the one that the picture begins with, and `at` the first of these.
fn put_rows<K: Sink>(
    first: u32,
    at: u32,
    rows: BitRows<'_>,
    done: u64,
    text: &mut [u8],
    sink: &mut K,
) -> Result<u64, Broken>
    requires sinking { (K.state sink.old).faults < 2 ^ 64 - 1 }
    requires some { 0 < rows.count }
    requires room { rows.count * (rows.stride + LONGEST_COMMAND) ≤ length text.old }
    requires few { rows.count * (rows.stride + LONGEST_COMMAND) ≤ 2 ^ 36 }
    requires tall { rows.count ≤ 2 ^ 29 }
    requires at_in { at ≤ 2 ^ 30 }
    requires done_in { done ≤ 2 ^ 62 }
    ensures rows { (inks : List Ink) (cells : List (List ℕ)) → length cells ≡ rows.entry.count →
        All (λ row. length (packed row) ≡ rows.entry.stride) cells →
        split_rows rows.entry.stride rows.entry.count rows.entry.bits.now ≡ map packed cells →
        WritesCells Pcl inks first at cells done (K.state sink.old) (K.state sink.new) result }
    ensures most { IfOk result (λ n. n ≤ done + rows.entry.count * (rows.entry.stride + LONGEST_COMMAND)) }
{
    let used = append_rows(text, rows.count, rows.stride, rows.bits);
    let size = (used / rows.count) as u64;
    write_rows(first, at, size, done, &text[..used], sink)
}

// Puts PCL rows of `stride` bytes each into a text, and answers how many bytes of it are used then.
fn append_rows(text: &mut [u8], rows: usize, stride: usize, bytes: &[u8]) -> usize
    requires stride { stride < 2 ^ 32 }
    requires bytes { length bytes.now ≡ rows * stride }
    requires room { rows * (stride + LONGEST_COMMAND) ≤ length text.old }
    ensures text { take result text.new ≡ flat_map pcl.row (split_rows stride rows bytes.now) }
    ensures most { result ≤ rows * (stride + LONGEST_COMMAND) }
    ensures within { result ≤ length text.new }
    ensures size { length text.new ≡ length text.old }
{
    let mut used = 0;
    for i in 0..rows {
        let start = i * stride;
        used = append_row(text, used, &bytes[start..start + stride]);
    }
    used
}
