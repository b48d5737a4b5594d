//! Painting a job's shapes and images, and writing its picture.
ghost use Rattle.std.specs.Prelude.{◌≡◌, ◌+◌, ◌-◌, ◌^◌, ◌<◌, ◌≤◌, length, IfErr, false, true};
ghost use Rattle.plot_page.specs.declared.stroke.TheConstants.{MOST_STROKES};
ghost use Rattle.plot_page.specs.Resolutions.{rows_of};
ghost use Rattle.rows.specs.Boxes.{strip_boxes};
ghost use Rattle.rows.specs.Contents.{contents_in};
ghost use Rattle.rows.specs.Pictures.{end_of, is_possible};
ghost use Rattle.rows.specs.Faults.{is_write};
ghost use Rattle.rows.specs.Progress.{HasPainted};
ghost use Rattle.rows.specs.Watching.{IsTold};

use crate::contents::Contents;
use crate::fault::PictureFault;
use crate::image_bands::{ImageBands, Pictured};
use crate::image_smooth_bands::{ImageSmoothBands, SmoothedImages};
use crate::painting::paint_by;
use crate::possible::is_smoothed;
use crate::scene::Scene;
use crate::watcher::Watcher;
use devices::Sink;
use picture_job::{Job, RowChoice};
use std::alloc::Global;
use stroke_raster::Gauge;

/// `paint` of shapes and at least one image.
///
/// Errors: those of `paint`.
pub fn paint_with_images<G: Gauge, K: Sink, W: Watcher>(
    alloc: Global,
    job: &Job,
    rows: RowChoice,
    contents: Contents<'_>,
    gauge: &mut G,
    sink: &mut K,
    watcher: &mut W,
) -> Result<u64, PictureFault>
    requires possible { is_possible rows.smoothing.times job.now ≡ true }
    requires few { length contents.shapes.strokes.now ≤ MOST_STROKES }
    requires some { 0 < length contents.images.list.now }
    requires sinking { (K.state sink.old).faults < 2 ^ 64 - 1 }
    ensures paints { HasPainted rows.smoothing.times rows.most_rows job.now (G.reaches gauge.old) (contents_in contents.entry) (K.state sink.old) (K.state sink.new) result }
    ensures tests { G.count gauge.new ≤ G.count gauge.old + strip_boxes rows.smoothing.times rows.most_rows job.now contents.entry.shapes.strokes.now }
    ensures same { G.reaches gauge.new ≡ G.reaches gauge.old }
    ensures told { IsTold is_write W.hears (end_of rows.most_rows job.now.first_row (rows_of job.now.page job.now.dots) - job.now.first_row) watcher.old watcher.new result }
    ensures untouched { IfErr result (λ fault. is_write fault ≡ false → sink.new ≡ sink.old) }
{
    let scene = Scene {
        shapes: contents.shapes,
        page: job.page,
        dots: job.dots,
        pens: job.pens,
    };
    let most = rows.most_rows;
    if is_smoothed(job.form, rows.smoothing) {
        let ask = SmoothedImages {
            times: rows.smoothing.times(),
            images: contents.images,
        };
        return paint_by::<ImageSmoothBands<'_>, G, K, W>(
            alloc, job, most, ask, scene, gauge, sink, watcher,
        );
    }
    let ask = Pictured {
        form: job.form,
        images: contents.images,
    };
    paint_by::<ImageBands<'_>, G, K, W>(alloc, job, most, ask, scene, gauge, sink, watcher)
}
