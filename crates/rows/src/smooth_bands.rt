//! Bands of pixels that are means of finer ones.
ghost use Rattle.std.specs.Prelude.{◌≡◌, ℕ, List, ◌+◌, ◌-◌, ◌*◌, ◌^◌, ◌<◌, ◌≤◌, ◌↔◌, All, length, map, nat_lt, if◌then◌else◌, IfOk, Err, false, true};
ghost use Rattle.std.specs.List.{range_with_len};
ghost use Rattle.plot_page.specs.declared.dots.TheConstants.{MOST_PIXELS_A_SIDE};
ghost use Rattle.stroke_raster.specs.Bands.{rows_of_band};
ghost use Rattle.smoothing.specs.Cells.{colours_of_cells};
ghost use Rattle.smoothing.specs.Rows.{times_of, width_of};
ghost use Rattle.smoothing.specs.Smoothings.{smoothed};
ghost use Rattle.plot_page.specs.Resolutions.{columns_of, rows_of};
ghost use Rattle.stroke_raster.specs.BandHeights.{is_band_height};
ghost use Rattle.png.specs.Headers.{HasColours};
ghost use Rattle.areas.specs.Views.{shapes_in};
ghost use Rattle.rows.specs.Boxes.{finer_between};
ghost use Rattle.rows.specs.Inks.{inks_held};
ghost use Rattle.rows.specs.ImageSmoothing.{IsMadeOf};
ghost use Rattle.rows.specs.Pictures.{finer, smoothed_pixels};
ghost use Rattle.rows.specs.PixelRows.{layout_bytes};
ghost use Rattle.rows.specs.Progress.{CanSmooth, row_pixels, smoothed_text, tests_left, WritesRows};

use crate::bands::{Bands, CELL_ROOM, height_within};
use crate::scene::Scene;
use crate::smoother::Smoother;
use crate::stroke_inks::StrokeInks;
use crate::writing::{Broken, put_row};
use devices::Sink;
use plot_page::Dots;
use png::Layout;
use std::alloc::Global;
use std::marker::Model;
use stroke_raster::{Band, Gauge, PaintFault, Painter};

/// A painter of a finer picture, what makes smoothed rows of its bands, how many rows there are, are made, and a band has at
/// most, and the row after the last one that is made.
#[derive(Drop)]
pub struct SmoothBands<'a> {
    pub(crate) painter: Painter<'a>,
    pub(crate) smoother: Smoother<'a>,
    pub(crate) times: u32,
    pub(crate) rows: u32,
    pub(crate) next: u32,
    pub(crate) end: u32,
    pub(crate) height: u32,
}

/// What smoothed rows are asked by: how many times finer the picture is painted, and how its pixels are laid out.
#[derive(Clone, Copy)]
pub struct Smoothed<'a> {
    pub times: u32,
    pub layout: Layout<'a>,
}

impl<'a> Model for SmoothBands<'a> {
    ghost use Rattle.std.specs.Prelude.{◌≡◌, ◌*◌, ◌≤◌};
    ghost use Rattle.smoothing.specs.Rows.{times_of, width_of};
    ghost use Rattle.png.specs.Headers.{HasColours};
    ghost use Rattle.plot_page.specs.declared.dots.TheConstants.{MOST_PIXELS_A_SIDE};
    ghost use Rattle.rows.specs.Pictures.{inks_of};
    ghost use Rattle.rows.specs.Inks.{inks_held};
    ghost use Rattle.rows.specs.Progress.{IsSmoothing, SmoothPainting};

    ghost Value = { SmoothPainting };

    ghost view = { λ b. record {
      painting = b.painter;
      times = b.times;
      layout = b.smoother.layout;
      columns = width_of b.smoother.pixels;
      rows = b.rows;
      next = b.next;
      end = b.end;
      height = b.height;
    } };

    ghost invariant = { λ b. (inks_held b.smoother.inks ≡ inks_of b.painter.strokes) × (times_of b.smoother.pixels ≡ b.times)
        × HasColours b.smoother.layout × IsSmoothing b.painter b.times b.end b.next b.height
        × (b.end ≤ b.rows) × (b.rows ≤ MOST_PIXELS_A_SIDE) × (width_of b.smoother.pixels ≤ MOST_PIXELS_A_SIDE) };
}

impl<'a> Bands<'a> for SmoothBands<'a> {
    type Ask = Smoothed<'a>;

    ghost can_begin = { λ ask scene. CanSmooth ask.times ask.layout scene.dots };

    ghost asked_text = { λ ask scene reaches row.
        layout_bytes ask.layout (smoothed_pixels ask.times reaches scene.pens (shapes_in scene.shapes) scene.page scene.dots row) };

    ghost asked_tests = { λ ask scene first end.
        finer_between ask.times scene.pens scene.shapes.strokes.now scene.page scene.dots first end };

    ghost row_text = { smoothed_text };

    ghost rows = { λ b. b.rows };

    ghost next = { λ b. b.next };

    ghost end = { λ b. b.end };

    ghost height = { λ b. b.height };

    ghost tests = { λ b. tests_left b.painting };

    fn begin(
        alloc: Global,
        ask: Smoothed<'a>,
        scene: Scene<'a>,
        band_rows: u32,
        first_row: u32,
        end_row: u32,
    ) -> Result<SmoothBands<'a>, PaintFault> {
        match SmoothBands::new(alloc, ask, scene, band_rows, first_row, end_row) {
            Ok(bands) => Ok(bands),
            Err(fault) => Err(fault),
        }
    }

    fn next_row(&self) -> u32 {
        self.next
    }

    fn end_row(&self) -> u32 {
        self.end
    }

    fn rows(&self) -> u32 {
        self.rows
    }

    fn write_next<G: Gauge, K: Sink>(
        &mut self,
        first: u32,
        done: u64,
        gauge: &mut G,
        sink: &mut K,
    ) -> Result<u64, Broken> {
        let at = self.next;
        let count = self.height.min(self.end - at);
        self.next = at + count;
        match self.painter.next_band(gauge) {
            Some(band) => write_smoothed(first, at, count, &band, done, &mut self.smoother, sink),
            // Not reached, since each row has a finer one.
            None => Ok(done),
        }
    }
}

impl<'a> SmoothBands<'a> {
    /// The bands of a smoothed picture, as `begin` says of all bands.
    pub(crate) fn new(
        alloc: Global,
        ask: Smoothed<'a>,
        scene: Scene<'a>,
        band_rows: u32,
        first_row: u32,
        end_row: u32,
    ) -> Result<SmoothBands<'a>, PaintFault>
        requires ask { CanSmooth ask.times ask.layout scene.dots }
        requires order { first_row ≤ rows_of scene.page scene.dots → first_row ≤ end_row }
        requires within { end_row ≤ rows_of scene.page scene.dots }
        ensures band { (result ≡ Err PaintFault.Band) ↔ (is_band_height band_rows ≡ false) }
        ensures first { (result ≡ Err PaintFault.Row) ↔ ((is_band_height band_rows ≡ true) × (rows_of scene.entry.page scene.entry.dots < first_row)) }
        ensures pixels { IfOk result (λ b. row_pixels b ≡ (λ reaches row. smoothed_pixels ask.entry.times reaches scene.entry.pens (shapes_in scene.entry.shapes) scene.entry.page scene.entry.dots row)) }
        ensures layout { IfOk result (λ b. b.layout ≡ ask.entry.layout) }
        ensures made { IfOk result (λ b. IsMadeOf b ask.entry.times scene.entry) }
        ensures rows { IfOk result (λ b. b.rows ≡ rows_of scene.entry.page scene.entry.dots) }
        ensures next { IfOk result (λ b. b.next ≡ first_row) }
        ensures end { IfOk result (λ b. b.end ≡ end_row) }
        ensures height { IfOk result (λ b. b.height ≤ band_rows) }
        ensures tests { IfOk result (λ b. tests_left b.painting ≡ finer_between ask.entry.times scene.entry.pens scene.entry.shapes.strokes.now scene.entry.page scene.entry.dots first_row end_row) }
    {
        let page = scene.page;
        let rows = scene.dots.rows(&page);
        if band_rows < 1 || band_rows > 4096 {
            return Err(PaintFault::Band);
        }
        if first_row > rows {
            return Err(PaintFault::Row);
        }
        let times = ask.times;
        let columns = scene.dots.columns(&page);
        let fine = Dots {
            resolution: times * scene.dots.per_inch(),
        };
        let height = height_within(band_rows, 4 * times * fine.columns(&page), CELL_ROOM)
            .min(4096 / times)
            .max(1);
        let first = (times * first_row).min(fine.rows(&page));
        let Ok(mut painter) = Painter::of_shapes(
            alloc,
            scene.shapes,
            page,
            fine,
            scene.pens,
            times * height,
            first,
        ) else {
            return Err(PaintFault::Memory);
        };
        stop_before(&mut painter, times, end_row, rows);
        let inks = StrokeInks::new(scene.shapes.strokes);
        let Ok(smoother) = Smoother::new(alloc, inks, ask.layout, times, columns) else {
            return Err(PaintFault::Memory);
        };
        Ok(SmoothBands {
            painter,
            smoother,
            times,
            rows,
            next: first_row,
            end: end_row,
            height,
        })
    }

    /// Whether a row is left.
    pub(crate) fn has_row(&self) -> bool
        ensures { (result ≡ true) ↔ (self.now.next < self.now.end) }
    {
        self.next < self.end
    }
}

// Lets the painter of a picture that is so many times finer stop before the finer rows of a row, if the picture has that.
fn stop_before(painter: &mut Painter<'_>, times: u32, end: u32, rows: u32)
    requires few { times ≤ 8 }
    requires tall { rows ≤ MOST_PIXELS_A_SIDE }
    requires from { end < rows → painter.old.next ≤ times * end }
    requires to { end < rows → times * end ≤ painter.old.end }
    ensures { painter.new ≡ record painter.old { end = if nat_lt end rows then times * end else painter.old.end } }
{
    if end < rows {
        painter.stop_at(times * end);
    }
}

// Writes so many smoothed rows of a band after `done` bytes, and answers how many bytes there are then. The first of them
// has the number `at`, and row `first` is the one that the picture begins with.
fn write_smoothed<K: Sink>(
    first: u32,
    at: u32,
    count: u32,
    band: &Band<'_>,
    done: u64,
    smoother: &mut Smoother<'_>,
    sink: &mut K,
) -> Result<u64, Broken>
    requires sinking { (K.state sink.old).faults < 2 ^ 64 - 1 }
    requires colours { HasColours smoother.old.layout }
    requires inks { All (λ row. All (λ cell. cell ≤ length (inks_held smoother.old.inks)) row) (rows_of_band band.now) }
    requires narrow { width_of smoother.old.pixels ≤ MOST_PIXELS_A_SIDE }
    requires few { count ≤ 4096 }
    requires place { at + count ≤ MOST_PIXELS_A_SIDE }
    requires done_in { done ≤ 2 ^ 62 }
    ensures few { IfOk result (λ n. n ≤ done + count * 33554432) }
    ensures rows { (row : ℕ → List ℕ) → ((k : ℕ) → k < count → row (at + k) ≡ layout_bytes smoother.old.layout
        (map (smoothed (times_of smoother.old.pixels) (colours_of_cells (inks_held smoother.old.inks) (rows_of_band band.now)) k)
        (range_with_len 0 (width_of smoother.old.pixels)))) →
        WritesRows row first at (at + count) done (K.state sink.old) (K.state sink.new) result }
    ensures inks { smoother.new.inks ≡ smoother.old.inks }
    ensures layout { smoother.new.layout ≡ smoother.old.layout }
    ensures times { times_of smoother.new.pixels ≡ times_of smoother.old.pixels }
    ensures width { width_of smoother.new.pixels ≡ width_of smoother.old.pixels }
{
    let mut written = done;
    for i in 0..count {
        smoother.make(band, i);
        written = put_row(first, at + i, written, smoother.row.bytes.as_slice(), sink)?;
    }
    Ok(written)
}
