//! Painting a job's shapes and images, and writing its picture as a PNG.
ghost use Rattle.std.specs.Prelude.{◌≡◌, ◌+◌, ◌-◌, ◌^◌, ◌<◌, ◌≤◌, length, IfErr, false, true};
ghost use Rattle.plot_page.specs.declared.stroke.TheConstants.{MOST_STROKES};
ghost use Rattle.plot_page.specs.Resolutions.{rows_of};
ghost use Rattle.rows.specs.Contents.{contents_in};
ghost use Rattle.rows.specs.Documents.{HasPaintedPng, is_png_possible, picture_shown, png_boxes};
ghost use Rattle.rows.specs.Faults.{is_write};
ghost use Rattle.rows.specs.Watching.{IsTold};

use crate::contents::Contents;
use crate::encoding::{encode, header_of};
use crate::fault::PictureFault;
use crate::image_bands::{ImageBands, Pictured};
use crate::image_smooth_bands::{ImageSmoothBands, SmoothedImages};
use crate::possible::is_smoothed;
use crate::scene::Scene;
use crate::watcher::Watcher;
use devices::Sink;
use picture_job::PngJob;
use picture_out::Form;
use png::Layout;
use std::alloc::Global;
use stroke_raster::Gauge;

/// `paint_png` of shapes and at least one image: with the colour of each pixel.
///
/// Errors: those of `paint_png`.
pub fn paint_png_with_images<G: Gauge, K: Sink, W: Watcher>(
    alloc: Global,
    job: &PngJob,
    contents: Contents<'_>,
    gauge: &mut G,
    sink: K,
    watcher: &mut W,
) -> (K, Result<(), PictureFault>)
    requires possible { is_png_possible job.now ≡ true }
    requires few { length contents.shapes.strokes.now ≤ MOST_STROKES }
    requires some { 0 < length contents.images.list.now }
    requires sinking { (K.state sink).faults < 2 ^ 64 - 1 }
    ensures paints { HasPaintedPng (picture_shown job.now (G.reaches gauge.old) (contents_in contents.entry))
        (K.state sink) (K.state result.0) result.1 }
    ensures tests { G.count gauge.new ≤ G.count gauge.old + png_boxes job.now contents.entry.shapes.strokes.now }
    ensures same { G.reaches gauge.new ≡ G.reaches gauge.old }
    ensures told { IsTold is_write W.hears (rows_of job.now.page job.now.dots) watcher.old watcher.new result.1 }
    ensures untouched { IfErr result.1 (λ fault. is_write fault ≡ false → result.0 ≡ sink) }
{
    let scene = Scene {
        shapes: contents.shapes,
        page: job.page,
        dots: job.dots,
        pens: job.pens,
    };
    let header = header_of(&scene, Layout::Rgb);
    if is_smoothed(Form::Ppm, job.smoothing) {
        let ask = SmoothedImages {
            times: job.smoothing.times(),
            images: contents.images,
        };
        return encode::<ImageSmoothBands<'_>, G, K, W>(
            alloc, scene, ask, &header, gauge, sink, watcher,
        );
    }
    let ask = Pictured {
        form: Form::Ppm,
        images: contents.images,
    };
    encode::<ImageBands<'_>, G, K, W>(alloc, scene, ask, &header, gauge, sink, watcher)
}
