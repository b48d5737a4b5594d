//! Bands of pixels that are means of finer ones, with images over these.
ghost use Rattle.std.specs.Prelude.{◌≡◌, ℕ, List, ◌+◌, ◌-◌, ◌*◌, ◌^◌, ◌<◌, ◌≤◌, All, length, map, IfOk};
ghost use Rattle.std.specs.List.{range_with_len};
ghost use Rattle.plot_page.specs.declared.dots.TheConstants.{MOST_PIXELS_A_SIDE};
ghost use Rattle.plot_page.specs.declared.stroke.TheConstants.{MOST_STROKES};
ghost use Rattle.plot_page.specs.Resolutions.{columns_of, rows_of};
ghost use Rattle.page_images.specs.PageImages.{ImageShape};
ghost use Rattle.page_images.specs.Views.{images_in};
ghost use Rattle.stroke_raster.specs.Bands.{first_of, rows_of_band};
ghost use Rattle.smoothing.specs.Cells.{colours_of_cells};
ghost use Rattle.smoothing.specs.Rows.{times_of, width_of};
ghost use Rattle.smoothing.specs.Smoothings.{smoothed};
ghost use Rattle.png.specs.declared.header.Layout.TheVariants.{Rgb};
ghost use Rattle.areas.specs.Views.{shapes_in};
ghost use Rattle.rows.specs.Boxes.{finer_between};
ghost use Rattle.rows.specs.ImagePictures.{image_pixels};
ghost use Rattle.rows.specs.ImageSmoothing.{IsOver};
ghost use Rattle.rows.specs.Inks.{image_inks_held};
ghost use Rattle.rows.specs.PixelRows.{layout_bytes};
ghost use Rattle.rows.specs.Progress.{band_with_images, CanSmooth, smoothed_image_text, tests_left, WritesRows};

use crate::bands::Bands;
use crate::image_inks::ImageInks;
use crate::image_smoother::{ImageSmoother, Sheet};
use crate::scene::Scene;
use crate::smooth_bands::{SmoothBands, Smoothed};
use crate::writing::{Broken, put_row};
use devices::Sink;
use page_images::PageImages;
use plot_page::Dots;
use png::Layout;
use std::alloc::Global;
use std::marker::Model;
use stroke_raster::{Band, Gauge, PaintFault};

/// What paints a finer picture band by band, and what makes smoothed rows of the bands with images over them.
#[derive(Drop)]
pub struct ImageSmoothBands<'a> {
    bands: SmoothBands<'a>,
    smoother: ImageSmoother<'a>,
}

/// What smoothed rows with images are asked by: how many times finer the picture is painted, and the images.
#[derive(Clone, Copy)]
pub struct SmoothedImages<'a> {
    pub times: u32,
    pub images: PageImages<'a>,
}

impl<'a> Model for ImageSmoothBands<'a> {
    ghost use Rattle.page_images.specs.Views.{images_in};
    ghost use Rattle.rows.specs.ImageSmoothing.{IsOver};
    ghost use Rattle.rows.specs.Progress.{SmoothImagePainting};

    ghost Value = { SmoothImagePainting };

    ghost view = { λ b. record { smooth = b.bands; images = images_in b.smoother.sheet.images } };

    ghost invariant = { λ b. IsOver b.bands b.smoother };
}

impl<'a> Bands<'a> for ImageSmoothBands<'a> {
    type Ask = SmoothedImages<'a>;

    ghost can_begin = { λ ask scene. CanSmooth ask.times Rgb scene.dots };

    ghost asked_text = { λ ask scene reaches row. layout_bytes Rgb (image_pixels ask.times reaches scene.pens
        (shapes_in scene.shapes) (images_in ask.images) scene.page scene.dots row) };

    ghost asked_tests = { λ ask scene first end.
        finer_between ask.times scene.pens scene.shapes.strokes.now scene.page scene.dots first end };

    ghost row_text = { smoothed_image_text };

    ghost rows = { λ b. b.smooth.rows };

    ghost next = { λ b. b.smooth.next };

    ghost end = { λ b. b.smooth.end };

    ghost height = { λ b. b.smooth.height };

    ghost tests = { λ b. tests_left b.smooth.painting };

    fn begin(
        alloc: Global,
        ask: SmoothedImages<'a>,
        scene: Scene<'a>,
        band_rows: u32,
        first_row: u32,
        end_row: u32,
    ) -> Result<ImageSmoothBands<'a>, PaintFault> {
        let smoothed = Smoothed {
            times: ask.times,
            layout: Layout::Rgb,
        };
        let bands = match SmoothBands::new(alloc, smoothed, scene, band_rows, first_row, end_row) {
            Ok(bands) => bands,
            Err(fault) => return Err(fault),
        };
        let sheet = Sheet {
            images: ask.images,
            page: scene.page,
            dots: Dots {
                resolution: ask.times * scene.dots.per_inch(),
            },
        };
        let columns = scene.dots.columns(&scene.page);
        let inks = ImageInks::new(scene.shapes.strokes);
        let Ok(smoother) = ImageSmoother::new(alloc, sheet, inks, ask.times, columns) else {
            return Err(PaintFault::Memory);
        };
        Ok(ImageSmoothBands { bands, smoother })
    }

    fn next_row(&self) -> u32 {
        self.bands.next_row()
    }

    fn end_row(&self) -> u32 {
        self.bands.end_row()
    }

    fn rows(&self) -> u32 {
        self.bands.rows()
    }

    fn write_next<G: Gauge, K: Sink>(
        &mut self,
        first: u32,
        done: u64,
        gauge: &mut G,
        sink: &mut K,
    ) -> Result<u64, Broken> {
        write_next_of(
            &mut self.bands,
            first,
            done,
            &mut self.smoother,
            gauge,
            sink,
        )
    }
}

// Paints the next band of finer rows, and writes the smoothed rows of it with images over them, as `write_next` says of all
// bands.
fn write_next_of<G: Gauge, K: Sink>(
    bands: &mut SmoothBands<'_>,
    first: u32,
    done: u64,
    smoother: &mut ImageSmoother<'_>,
    gauge: &mut G,
    sink: &mut K,
) -> Result<u64, Broken>
    requires left { bands.old.next < bands.old.end }
    requires over { IsOver bands.old smoother.old }
    requires sinking { (K.state sink.old).faults < 2 ^ 64 - 1 }
    requires done_in { done ≤ 2 ^ 62 }
    ensures text { (images : List ImageShape) → smoothed_image_text (record { smooth = bands.new; images = images })
        ≡ smoothed_image_text (record { smooth = bands.old; images = images }) }
    ensures rows { bands.new.rows ≡ bands.old.rows }
    ensures some { bands.old.next < bands.new.next }
    ensures end { bands.new.end ≡ bands.old.end }
    ensures within { bands.new.next ≤ bands.new.end }
    ensures most { bands.new.next ≤ bands.old.next + bands.old.height }
    ensures height { bands.new.height ≡ bands.old.height }
    ensures writes { WritesRows (smoothed_image_text (record { smooth = bands.old; images = images_in smoother.old.sheet.images })
        (G.reaches gauge.old)) first bands.old.next bands.new.next done (K.state sink.old) (K.state sink.new) result }
    ensures small { IfOk result (λ bytes. bytes ≤ done + (bands.new.next - bands.old.next) * 33554432) }
    ensures same { G.reaches gauge.new ≡ G.reaches gauge.old }
    ensures tests { G.count gauge.new + tests_left bands.new.painting ≤ G.count gauge.old + tests_left bands.old.painting }
    ensures over { IsOver bands.new smoother.new }
    ensures sheet { smoother.new.sheet ≡ smoother.old.sheet }
{
    let at = bands.next;
    let count = bands.height.min(bands.end - at);
    bands.next = at + count;
    if let Some(band) = bands.painter.next_band(gauge) {
        return write_smoothed(first, at, count, &band, done, smoother, sink);
    }
    // Not reached, since each row has a finer one.
    Ok(done)
}

// Writes so many smoothed rows of a band with images over it after `done` bytes, and answers how many bytes there are then.
// The first of them has the number `at`, and row `first` is the one that the picture begins with.
fn write_smoothed<K: Sink>(
    first: u32,
    at: u32,
    count: u32,
    band: &Band<'_>,
    done: u64,
    smoother: &mut ImageSmoother<'_>,
    sink: &mut K,
) -> Result<u64, Broken>
    requires sinking { (K.state sink.old).faults < 2 ^ 64 - 1 }
    requires wide { All (λ row. length row ≡ columns_of smoother.old.sheet.page smoother.old.sheet.dots) (rows_of_band band.now) }
    requires positions { All (λ row. All (λ cell. cell ≤ MOST_STROKES) row) (rows_of_band band.now) }
    requires on_page { first_of band.now + length (rows_of_band band.now) ≤ rows_of smoother.old.sheet.page smoother.old.sheet.dots }
    requires narrow { width_of smoother.old.pixels ≤ MOST_PIXELS_A_SIDE }
    requires few { count ≤ 4096 }
    requires place { at + count ≤ MOST_PIXELS_A_SIDE }
    requires done_in { done ≤ 2 ^ 62 }
    ensures few { IfOk result (λ n. n ≤ done + count * 33554432) }
    ensures rows { (row : ℕ → List ℕ) → ((k : ℕ) → k < count → row (at + k) ≡ layout_bytes Rgb
        (map (smoothed (times_of smoother.old.pixels) (colours_of_cells (image_inks_held smoother.old.inks)
        (band_with_images (images_in smoother.old.sheet.images) smoother.old.sheet.page smoother.old.sheet.dots (first_of band.now) (rows_of_band band.now))) k)
        (range_with_len 0 (width_of smoother.old.pixels)))) →
        WritesRows row first at (at + count) done (K.state sink.old) (K.state sink.new) result }
    ensures sheet { smoother.new.sheet ≡ smoother.old.sheet }
    ensures inks { smoother.new.inks ≡ smoother.old.inks }
    ensures times { times_of smoother.new.pixels ≡ times_of smoother.old.pixels }
    ensures width { width_of smoother.new.pixels ≡ width_of smoother.old.pixels }
{
    let mut written = done;
    for i in 0..count {
        smoother.make(band, i);
        written = put_row(first, at + i, written, smoother.row.bytes.as_slice(), sink)?;
    }
    Ok(written)
}
