//! Bands of cells: each row is written in the picture's form.
ghost use Rattle.std.specs.Prelude.{◌≡◌, ◌+◌, ◌-◌, ◌*◌, ◌^◌, ◌<◌, ◌≤◌, All, length, IfOk, ⊤};
ghost use Rattle.plot_page.specs.declared.dots.TheConstants.{MOST_PIXELS_A_SIDE};
ghost use Rattle.plot_page.specs.Resolutions.{rows_of};
ghost use Rattle.stroke_raster.specs.Bands.{first_of, rows_of_band};
ghost use Rattle.picture_out.specs.Rooms.{room_of};
ghost use Rattle.areas.specs.Views.{shapes_in};
ghost use Rattle.rows.specs.Pictures.{row_of_list};
ghost use Rattle.rows.specs.Boxes.{boxes_between};
ghost use Rattle.rows.specs.Progress.{painting_row, tests_left, WritesCells};

use crate::bands::{Bands, CELL_ROOM, height_within};
use crate::buffer::buffer_of;
use crate::scene::Scene;
use crate::stroke_inks::StrokeInks;
use crate::writing::{Broken, whole_before};
use devices::Sink;
use picture_out::{Cells, Form, Inks, put_row, row_space};
use std::alloc::Global;
use std::marker::Model;
use stroke_raster::{Band, Gauge, PaintFault, Painter};

/// A painter, and what its rows are written with: their form, the inks of the strokes, and a buffer for a row.
#[derive(Drop)]
pub struct CellBands<'a> {
    painter: Painter<'a>,
    form: Form,
    inks: StrokeInks<'a>,
    buffer: Vec<u8>,
}

impl<'a> Model for CellBands<'a> {
    ghost use Rattle.std.specs.Prelude.{◌≡◌, ◌≤◌, length};
    ghost use Rattle.plot_page.specs.Resolutions.{columns_of};
    ghost use Rattle.picture_out.specs.Rooms.{room_of};
    ghost use Rattle.rows.specs.Pictures.{inks_of};
    ghost use Rattle.rows.specs.Inks.{inks_held};
    ghost use Rattle.rows.specs.Progress.{CellPainting};

    ghost Value = { CellPainting };

    ghost view = { λ b. record { painting = b.painter; form = b.form } };

    ghost invariant = { λ b. (inks_held b.inks ≡ inks_of b.painter.strokes)
        × (room_of b.form (columns_of b.painter.page b.painter.dots) ≤ length b.buffer.items) };
}

impl<'a> Bands<'a> for CellBands<'a> {
    type Ask = Form;

    ghost can_begin = { λ _ _. ⊤ };

    ghost asked_text = { λ form scene reaches row.
        row_of_list form reaches scene.pens (shapes_in scene.shapes) scene.page scene.dots row };

    ghost asked_tests = { λ _ scene first end.
        boxes_between scene.pens scene.shapes.strokes.now scene.page scene.dots first end };

    ghost row_text = { λ b. painting_row b.form b.painting };

    ghost rows = { λ b. rows_of b.painting.page b.painting.dots };

    ghost next = { λ b. b.painting.next };

    ghost end = { λ b. b.painting.end };

    ghost height = { λ b. b.painting.band_rows };

    ghost tests = { λ b. tests_left b.painting };

    fn begin(
        alloc: Global,
        form: Form,
        scene: Scene<'a>,
        band_rows: u32,
        first_row: u32,
        end_row: u32,
    ) -> Result<CellBands<'a>, PaintFault> {
        let columns = scene.dots.columns(&scene.page);
        let height = height_within(band_rows, 4 * columns, CELL_ROOM);
        let mut painter = Painter::of_shapes(
            alloc,
            scene.shapes,
            scene.page,
            scene.dots,
            scene.pens,
            height,
            first_row,
        )?;
        painter.stop_at(end_row);
        let Ok(buffer) = buffer_of(alloc, row_space(form, columns)) else {
            return Err(PaintFault::Memory);
        };
        Ok(CellBands {
            painter,
            form,
            inks: StrokeInks::new(scene.shapes.strokes),
            buffer,
        })
    }

    fn next_row(&self) -> u32 {
        self.painter.next_row()
    }

    fn end_row(&self) -> u32 {
        self.painter.end_row()
    }

    fn rows(&self) -> u32 {
        self.painter.rows()
    }

    fn write_next<G: Gauge, K: Sink>(
        &mut self,
        first: u32,
        done: u64,
        gauge: &mut G,
        sink: &mut K,
    ) -> Result<u64, Broken> {
        match self.painter.next_band(gauge) {
            Some(band) => write_band(
                self.form,
                first,
                &band,
                done,
                &self.inks,
                &mut self.buffer,
                sink,
            ),
            // Not reached, since a row is left.
            None => Ok(done),
        }
    }
}

// Writes the rows of a band after `done` bytes, and answers how many bytes there are then. Row
// `first` is the one that the picture begins with.
fn write_band<I: Inks, K: Sink>(
    form: Form,
    first: u32,
    band: &Band<'_>,
    done: u64,
    inks: &I,
    buffer: &mut [u8],
    sink: &mut K,
) -> Result<u64, Broken>
    requires sinking { (K.state sink.old).faults < 2 ^ 64 - 1 }
    requires columns { All (λ row. length row ≤ MOST_PIXELS_A_SIDE) (rows_of_band band.now) }
    requires inks { All (λ row. All (λ cell. cell ≤ length (I.inks inks.now)) row) (rows_of_band band.now) }
    requires room { All (λ row. room_of form (length row) ≤ length buffer.old) (rows_of_band band.now) }
    requires rows_in { first_of band.now + length (rows_of_band band.now) ≤ MOST_PIXELS_A_SIDE }
    requires done_in { done ≤ 2 ^ 62 }
    ensures small { IfOk result (λ bytes. bytes ≤ done + length (rows_of_band band.now) * 33554432) }
    ensures rows { WritesCells form (I.inks inks.now) first (first_of band.now) (rows_of_band band.now) done
        (K.state sink.old) (K.state sink.new) result }
{
    let mut written = done;
    let count = band.rows();
    for i in 0..count {
        let row = band.first() + i;
        let span = band.span(i);
        let cells = Cells::within(band.row(i), span.low, span.end);
        match put_row(form, row, cells, inks, buffer, sink) {
            Ok(bytes) => written += bytes,
            Err(fault) => {
                return Err(Broken {
                    row,
                    whole: whole_before(row, first, written),
                    bytes: written + fault.bytes(),
                });
            }
        }
    }
    Ok(written)
}
