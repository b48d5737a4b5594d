//! Bands of cells with images over them: each row is written in the picture's form.
ghost use Rattle.std.specs.Prelude.{◌≡◌, ℕ, List, [], ◌+◌, ◌-◌, ◌*◌, ◌^◌, ◌<◌, ◌≤◌, All, length, get_or, IfOk, ⊤};
ghost use Rattle.plot_page.specs.declared.dots.TheConstants.{MOST_PIXELS_A_SIDE};
ghost use Rattle.plot_page.specs.declared.stroke.TheConstants.{MOST_STROKES};
ghost use Rattle.plot_page.specs.Resolutions.{columns_of, rows_of};
ghost use Rattle.stroke_raster.specs.Bands.{first_of, rows_of_band};
ghost use Rattle.areas.specs.Views.{shapes_in};
ghost use Rattle.page_images.specs.Views.{images_in};
ghost use Rattle.picture_out.specs.Forms.{row_bytes};
ghost use Rattle.rows.specs.Boxes.{boxes_between};
ghost use Rattle.rows.specs.ImageCells.{inked, with_images};
ghost use Rattle.rows.specs.ImagePictures.{image_row};
ghost use Rattle.rows.specs.Inks.{image_inks_held};
ghost use Rattle.rows.specs.Progress.{image_painting_row, tests_left, WritesRows};

use crate::bands::{Bands, CELL_ROOM, height_within};
use crate::cell_row::CellRow;
use crate::image_inks::ImageInks;
use crate::image_row::ImageRow;
use crate::scene::Scene;
use crate::writing::Broken;
use devices::Sink;
use page_images::PageImages;
use picture_out::Form;
use std::alloc::Global;
use std::marker::Model;
use stroke_raster::{Band, Gauge, PaintFault, Painter};

/// A painter, and what its rows are written with.
#[derive(Drop)]
pub struct ImageBands<'a> {
    painter: Painter<'a>,
    row: ImageRow<'a>,
}

/// What rows with images are asked by: their form, and the images.
#[derive(Clone, Copy)]
pub struct Pictured<'a> {
    pub form: Form,
    pub images: PageImages<'a>,
}

impl<'a> Model for ImageBands<'a> {
    ghost use Rattle.std.specs.Prelude.{◌≡◌, ◌≤◌, length};
    ghost use Rattle.plot_page.specs.declared.stroke.TheConstants.{MOST_STROKES};
    ghost use Rattle.page_images.specs.Views.{images_in};
    ghost use Rattle.rows.specs.ImageCells.{inks_with};
    ghost use Rattle.rows.specs.Inks.{image_inks_held};
    ghost use Rattle.rows.specs.Progress.{ImagePainting};

    ghost Value = { ImagePainting };

    ghost view = { λ b. record { painting = b.painter; images = images_in b.row.row.images; form = b.row.form } };

    ghost invariant = { λ b. (image_inks_held b.row.inks ≡ inks_with b.painter.strokes) × (b.row.row.page ≡ b.painter.page)
        × (b.row.row.dots ≡ b.painter.dots) × (length b.painter.strokes ≤ MOST_STROKES) };
}

impl<'a> Bands<'a> for ImageBands<'a> {
    type Ask = Pictured<'a>;

    ghost can_begin = { λ _ _. ⊤ };

    ghost asked_text = { λ ask scene reaches row.
        image_row ask.form reaches scene.pens (shapes_in scene.shapes) (images_in ask.images) scene.page scene.dots row };

    ghost asked_tests = { λ _ scene first end.
        boxes_between scene.pens scene.shapes.strokes.now scene.page scene.dots first end };

    ghost row_text = { image_painting_row };

    ghost rows = { λ b. rows_of b.painting.page b.painting.dots };

    ghost next = { λ b. b.painting.next };

    ghost end = { λ b. b.painting.end };

    ghost height = { λ b. b.painting.band_rows };

    ghost tests = { λ b. tests_left b.painting };

    fn begin(
        alloc: Global,
        ask: Pictured<'a>,
        scene: Scene<'a>,
        band_rows: u32,
        first_row: u32,
        end_row: u32,
    ) -> Result<ImageBands<'a>, PaintFault> {
        let columns = scene.dots.columns(&scene.page);
        let height = height_within(band_rows, 4 * columns, CELL_ROOM);
        let mut painter = Painter::of_shapes(
            alloc,
            scene.shapes,
            scene.page,
            scene.dots,
            scene.pens,
            height,
            first_row,
        )?;
        painter.stop_at(end_row);
        let Ok(cells) = CellRow::new(alloc, ask.images, scene.page, scene.dots) else {
            return Err(PaintFault::Memory);
        };
        let inks = ImageInks::new(scene.shapes.strokes);
        let Ok(row) = ImageRow::new(alloc, cells, ask.form, inks) else {
            return Err(PaintFault::Memory);
        };
        Ok(ImageBands { painter, row })
    }

    fn next_row(&self) -> u32 {
        self.painter.next_row()
    }

    fn end_row(&self) -> u32 {
        self.painter.end_row()
    }

    fn rows(&self) -> u32 {
        self.painter.rows()
    }

    fn write_next<G: Gauge, K: Sink>(
        &mut self,
        first: u32,
        done: u64,
        gauge: &mut G,
        sink: &mut K,
    ) -> Result<u64, Broken> {
        match self.painter.next_band(gauge) {
            Some(band) => write_with_images(first, &band, done, &mut self.row, sink),
            // Not reached, since a row is left.
            None => Ok(done),
        }
    }
}

// Writes the rows of a band with images over them after `done` bytes, and answers how many bytes there are then. Row `first`
// is the one that the picture begins with.
fn write_with_images<K: Sink>(
    first: u32,
    band: &Band<'_>,
    done: u64,
    writer: &mut ImageRow<'_>,
    sink: &mut K,
) -> Result<u64, Broken>
    requires sinking { (K.state sink.old).faults < 2 ^ 64 - 1 }
    requires wide { All (λ row. length row ≡ columns_of writer.old.row.page writer.old.row.dots) (rows_of_band band.now) }
    requires narrow { columns_of writer.old.row.page writer.old.row.dots ≤ MOST_PIXELS_A_SIDE }
    requires positions { All (λ row. All (λ cell. cell ≤ MOST_STROKES) row) (rows_of_band band.now) }
    requires on_page { first_of band.now + length (rows_of_band band.now) ≤ rows_of writer.old.row.page writer.old.row.dots }
    requires rows_in { first_of band.now + length (rows_of_band band.now) ≤ MOST_PIXELS_A_SIDE }
    requires done_in { done ≤ 2 ^ 62 }
    ensures few { IfOk result (λ n. n ≤ done + length (rows_of_band band.now) * 33554432) }
    ensures rows { (text : ℕ → List ℕ) → ((k : ℕ) → k < length (rows_of_band band.now) → text (first_of band.now + k)
        ≡ row_bytes writer.old.form (first_of band.now + k) (image_inks_held writer.old.inks) (inked writer.old.form
        (with_images (images_in writer.old.row.images) writer.old.row.page writer.old.row.dots (first_of band.now + k) (get_or (rows_of_band band.now) k [])))) →
        WritesRows text first (first_of band.now) (first_of band.now + length (rows_of_band band.now)) done
        (K.state sink.old) (K.state sink.new) result }
    ensures images { writer.new.row.images ≡ writer.old.row.images }
    ensures page { writer.new.row.page ≡ writer.old.row.page }
    ensures dots { writer.new.row.dots ≡ writer.old.row.dots }
    ensures form { writer.new.form ≡ writer.old.form }
    ensures inks { writer.new.inks ≡ writer.old.inks }
{
    let mut written = done;
    let count = band.rows();
    for i in 0..count {
        let row = band.first() + i;
        written = writer.put(first, row, written, band.row(i), sink)?;
    }
    Ok(written)
}
