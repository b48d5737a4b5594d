//! Bands of cells whose rows are numbers of a palette, packed into bytes.
ghost use Rattle.std.specs.Prelude.{◌≡◌, ℕ, List, [], ◌+◌, ◌-◌, ◌*◌, ◌^◌, ◌<◌, ◌≤◌, All, length, map, get_or, IfOk};
ghost use Rattle.plot_page.specs.declared.dots.TheConstants.{MOST_PIXELS_A_SIDE};
ghost use Rattle.plot_page.specs.Resolutions.{rows_of};
ghost use Rattle.stroke_raster.specs.Bands.{first_of, rows_of_band};
ghost use Rattle.areas.specs.Views.{shapes_in};
ghost use Rattle.rows.specs.Boxes.{boxes_between};
ghost use Rattle.png.specs.Headers.{bits_of_depth};
ghost use Rattle.png.specs.Packing.{packed_samples};
ghost use Rattle.rows.specs.Palettes.{number_of, numbers_bytes, numbers_row};
ghost use Rattle.rows.specs.Progress.{painting_shapes, tests_left, WritesRows};

use crate::bands::{Bands, CELL_ROOM, height_within};
use crate::sample_row::SampleRow;
use crate::scene::Scene;
use crate::writing::{Broken, put_row};
use devices::Sink;
use png::Depth;
use std::alloc::Global;
use std::marker::Model;
use stroke_raster::{Band, Gauge, PaintFault, Painter};

/// A painter, the number of each stroke's colour, and a row.
#[derive(Drop)]
pub struct NumberBands<'a> {
    painter: Painter<'a>,
    numbers: &'a [u8],
    row: SampleRow,
}

/// What rows of numbers are asked by: how many bits a number takes, and the number of each stroke's colour.
#[derive(Clone, Copy)]
pub struct Numbered<'a> {
    pub depth: Depth,
    pub numbers: &'a [u8],
}

impl<'a> Model for NumberBands<'a> {
    ghost use Rattle.std.specs.Prelude.{◌≡◌, ◌^◌, ◌<◌, All, length};
    ghost use Rattle.plot_page.specs.Resolutions.{columns_of};
    ghost use Rattle.png.specs.Headers.{bits_of_depth};
    ghost use Rattle.rows.specs.Progress.{NumberPainting};

    ghost Value = { NumberPainting };

    ghost view = { λ b. record { painting = b.painter; depth = b.row.depth; numbers = b.numbers.now } };

    ghost invariant = { λ b. (length b.numbers.now ≡ length b.painter.strokes)
        × (All (λ number. number < 2 ^ bits_of_depth b.row.depth) b.numbers.now)
        × (b.row.columns ≡ columns_of b.painter.page b.painter.dots) };
}

impl<'a> Bands<'a> for NumberBands<'a> {
    type Ask = Numbered<'a>;

    ghost can_begin = { λ ask scene. (length ask.numbers.now ≡ length scene.shapes.strokes.now)
        × (All (λ number. number < 2 ^ bits_of_depth ask.depth) ask.numbers.now) };

    ghost asked_text = { λ ask scene reaches row.
        numbers_row ask.depth ask.numbers.now scene.pens (shapes_in scene.shapes) scene.page scene.dots reaches row };

    ghost asked_tests = { λ _ scene first end.
        boxes_between scene.pens scene.shapes.strokes.now scene.page scene.dots first end };

    ghost row_text = { λ b.
        numbers_row b.depth b.numbers b.painting.pens (painting_shapes b.painting) b.painting.page b.painting.dots };

    ghost rows = { λ b. rows_of b.painting.page b.painting.dots };

    ghost next = { λ b. b.painting.next };

    ghost end = { λ b. b.painting.end };

    ghost height = { λ b. b.painting.band_rows };

    ghost tests = { λ b. tests_left b.painting };

    fn begin(
        alloc: Global,
        ask: Numbered<'a>,
        scene: Scene<'a>,
        band_rows: u32,
        first_row: u32,
        end_row: u32,
    ) -> Result<NumberBands<'a>, PaintFault> {
        let columns = scene.dots.columns(&scene.page);
        let height = height_within(band_rows, 4 * columns, CELL_ROOM);
        let mut painter = Painter::of_shapes(
            alloc,
            scene.shapes,
            scene.page,
            scene.dots,
            scene.pens,
            height,
            first_row,
        )?;
        painter.stop_at(end_row);
        let Ok(row) = SampleRow::new(alloc, ask.depth, columns as usize) else {
            return Err(PaintFault::Memory);
        };
        Ok(NumberBands {
            painter,
            numbers: ask.numbers,
            row,
        })
    }

    fn next_row(&self) -> u32 {
        self.painter.next_row()
    }

    fn end_row(&self) -> u32 {
        self.painter.end_row()
    }

    fn rows(&self) -> u32 {
        self.painter.rows()
    }

    fn write_next<G: Gauge, K: Sink>(
        &mut self,
        first: u32,
        done: u64,
        gauge: &mut G,
        sink: &mut K,
    ) -> Result<u64, Broken> {
        match self.painter.next_band(gauge) {
            Some(band) => write_numbers(first, &band, done, self.numbers, &mut self.row, sink),
            // Not reached, since a row is left.
            None => Ok(done),
        }
    }
}

// Writes the rows of a band as numbers after `done` bytes, and answers how many bytes there are then. Row `first` is the
// one that the picture begins with.
fn write_numbers<K: Sink>(
    first: u32,
    band: &Band<'_>,
    done: u64,
    numbers: &[u8],
    bytes: &mut SampleRow,
    sink: &mut K,
) -> Result<u64, Broken>
    requires sinking { (K.state sink.old).faults < 2 ^ 64 - 1 }
    requires columns { All (λ row. length row ≡ bytes.old.columns) (rows_of_band band.now) }
    requires narrow { bytes.old.columns ≤ MOST_PIXELS_A_SIDE }
    requires numbered { All (λ row. All (λ cell. cell ≤ length numbers.now) row) (rows_of_band band.now) }
    requires small { All (λ number. number < 2 ^ bits_of_depth bytes.old.depth) numbers.now }
    requires rows_in { first_of band.now + length (rows_of_band band.now) ≤ MOST_PIXELS_A_SIDE }
    requires done_in { done ≤ 2 ^ 62 }
    ensures few { IfOk result (λ n. n ≤ done + length (rows_of_band band.now) * 33554432) }
    ensures rows { (row : ℕ → List ℕ) → ((k : ℕ) → k < length (rows_of_band band.now) → row (first_of band.now + k)
        ≡ packed_samples bytes.old.depth (numbers_bytes bytes.old.depth bytes.old.columns)
        (map (number_of numbers.now) (get_or (rows_of_band band.now) k []))) →
        WritesRows row first (first_of band.now) (first_of band.now + length (rows_of_band band.now)) done
        (K.state sink.old) (K.state sink.new) result }
    ensures depth { bytes.new.depth ≡ bytes.old.depth }
    ensures same { bytes.new.columns ≡ bytes.old.columns }
{
    let mut written = done;
    let count = band.rows();
    for i in 0..count {
        let row = band.first() + i;
        let span = band.span(i);
        bytes.pack(band.row(i), span.low as usize, span.end as usize, numbers);
        written = put_row(first, row, written, bytes.bytes.as_slice(), sink)?;
    }
    Ok(written)
}
