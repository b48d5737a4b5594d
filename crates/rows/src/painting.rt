//! Painting what a job's picture shows, and writing it.
ghost use Rattle.std.specs.Prelude.{◌≡◌, ℕ, ◌+◌, ◌-◌, ◌^◌, ◌<◌, ◌≤◌, length, IfErr, false, true};
ghost use Rattle.plot_page.specs.declared.stroke.TheConstants.{MOST_STROKES};
ghost use Rattle.plot_page.specs.Resolutions.{rows_of};
ghost use Rattle.areas.specs.Views.{shapes_in};
ghost use Rattle.rows.specs.Boxes.{strip_boxes};
ghost use Rattle.rows.specs.Contents.{ContentList, contents_in, plain};
ghost use Rattle.rows.specs.ImagePictures.{contents_row};
ghost use Rattle.rows.specs.Pictures.{end_of, is_possible};
ghost use Rattle.rows.specs.Faults.{is_write};
ghost use Rattle.rows.specs.Progress.{HasPainted};
ghost use Rattle.rows.specs.Watching.{IsTold};

use crate::bands::Bands;
use crate::cell_bands::CellBands;
use crate::contents::Contents;
use crate::fault::PictureFault;
use crate::image_painting::paint_with_images;
use crate::pcl_bands::PclBands;
use crate::possible::is_smoothed;
use crate::scene::Scene;
use crate::smooth_bands::{SmoothBands, Smoothed};
use crate::strips::end_of;
use crate::watcher::Watcher;
use crate::writing::write_picture;
use areas::Shapes;
use devices::Sink;
use picture_job::{Job, RowChoice};
use picture_out::Form;
use png::Layout;
use std::alloc::Global;
use stroke_raster::{Gauge, Inker};

/// Paints a job's shapes and images and writes its picture, or at most so many rows of it, and answers how many bytes that are.
/// Rows that are not written are not painted. The watcher is told after each band how many rows are written.
///
/// Errors, in this order: `Paint` for a band height or a first row out of range; `Write` if the sink
/// fails. `Memory` comes when memory is refused.
pub fn paint<G: Gauge, K: Sink, W: Watcher>(
    alloc: Global,
    job: &Job,
    rows: RowChoice,
    contents: Contents<'_>,
    gauge: &mut G,
    sink: &mut K,
    watcher: &mut W,
) -> Result<u64, PictureFault>
    requires possible { is_possible rows.smoothing.times job.now ≡ true }
    requires few { length contents.shapes.strokes.now ≤ MOST_STROKES }
    requires sinking { (K.state sink.old).faults < 2 ^ 64 - 1 }
    ensures paints { HasPainted rows.smoothing.times rows.most_rows job.now (G.reaches gauge.old) (contents_in contents.entry) (K.state sink.old) (K.state sink.new) result }
    ensures tests { G.count gauge.new ≤ G.count gauge.old + strip_boxes rows.smoothing.times rows.most_rows job.now contents.entry.shapes.strokes.now }
    ensures same { G.reaches gauge.new ≡ G.reaches gauge.old }
    ensures told { IsTold is_write W.hears (end_of rows.most_rows job.now.first_row (rows_of job.now.page job.now.dots) - job.now.first_row) watcher.old watcher.new result }
    ensures untouched { IfErr result (λ fault. is_write fault ≡ false → sink.new ≡ sink.old) }
{
    if contents.images.list.is_empty() {
        paint_shapes(alloc, job, rows, contents.shapes, gauge, sink, watcher)
    } else {
        paint_with_images(alloc, job, rows, contents, gauge, sink, watcher)
    }
}

// The same of shapes without images. PBM and PCL show only which pixels have ink, so their rows are painted as bits; those of
// the other forms as cells.
fn paint_shapes<G: Gauge, K: Sink, W: Watcher>(
    alloc: Global,
    job: &Job,
    rows: RowChoice,
    shapes: Shapes<'_>,
    gauge: &mut G,
    sink: &mut K,
    watcher: &mut W,
) -> Result<u64, PictureFault>
    requires possible { is_possible rows.smoothing.times job.now ≡ true }
    requires few { length shapes.strokes.now ≤ MOST_STROKES }
    requires sinking { (K.state sink.old).faults < 2 ^ 64 - 1 }
    ensures paints { HasPainted rows.smoothing.times rows.most_rows job.now (G.reaches gauge.old) (plain (shapes_in shapes.entry)) (K.state sink.old) (K.state sink.new) result }
    ensures tests { G.count gauge.new ≤ G.count gauge.old + strip_boxes rows.smoothing.times rows.most_rows job.now shapes.entry.strokes.now }
    ensures same { G.reaches gauge.new ≡ G.reaches gauge.old }
    ensures told { IsTold is_write W.hears (end_of rows.most_rows job.now.first_row (rows_of job.now.page job.now.dots) - job.now.first_row) watcher.old watcher.new result }
    ensures untouched { IfErr result (λ fault. is_write fault ≡ false → sink.new ≡ sink.old) }
{
    let scene = Scene {
        shapes,
        page: job.page,
        dots: job.dots,
        pens: job.pens,
    };
    let most = rows.most_rows;
    if is_smoothed(job.form, rows.smoothing) {
        let ask = Smoothed {
            times: rows.smoothing.times(),
            layout: Layout::Rgb,
        };
        return paint_by::<SmoothBands<'_>, G, K, W>(
            alloc, job, most, ask, scene, gauge, sink, watcher,
        );
    }
    match job.form {
        Form::Pbm => paint_by::<Inker<'_>, G, K, W>(
            alloc,
            job,
            most,
            (),
            scene,
            gauge,
            sink,
            watcher,
        ),
        Form::Pcl => {
            paint_by::<PclBands<'_>, G, K, W>(alloc, job, most, (), scene, gauge, sink, watcher)
        }
        form @ (Form::Marks | Form::Ppm) => {
            paint_by::<CellBands<'_>, G, K, W>(alloc, job, most, form, scene, gauge, sink, watcher)
        }
    }
}

/// The same of a scene of the job, by these bands, which are asked for so.
#[tactic(auto, using(crate::proofs::Watched::not_told))]
pub(crate) fn paint_by<'a, B: Bands<'a> + Drop, G: Gauge, K: Sink, W: Watcher>(
    alloc: Global,
    job: &Job,
    most_rows: Option<u32>,
    ask: B::Ask,
    scene: Scene<'a>,
    gauge: &mut G,
    sink: &mut K,
    watcher: &mut W,
) -> Result<u64, PictureFault>
    requires page { scene.page ≡ job.now.page }
    requires dots { scene.dots ≡ job.now.dots }
    requires sinking { (K.state sink.old).faults < 2 ^ 64 - 1 }
    requires ask { B.can_begin ask scene }
    ensures paints { (n : ℕ) (contents : ContentList) → B.asked_text ask scene.entry (G.reaches gauge.old)
        ≡ contents_row n job.now (G.reaches gauge.old) contents →
        HasPainted n most_rows job.now (G.reaches gauge.old) contents (K.state sink.old) (K.state sink.new) result }
    ensures tests { G.count gauge.new ≤ G.count gauge.old + B.asked_tests ask scene.entry job.now.first_row
        (end_of most_rows job.now.first_row (rows_of job.now.page job.now.dots)) }
    ensures same { G.reaches gauge.new ≡ G.reaches gauge.old }
    ensures told { IsTold is_write W.hears (end_of most_rows job.now.first_row (rows_of job.now.page job.now.dots) - job.now.first_row) watcher.old watcher.new result }
    ensures untouched { IfErr result (λ fault. is_write fault ≡ false → sink.new ≡ sink.old) }
{
    let end = end_of(most_rows, job.first_row, scene.dots.rows(&scene.page));
    let mut bands = B::begin(alloc, ask, scene, job.band, job.first_row, end)?;
    let columns = job.dots.columns(&job.page);
    let bytes = write_picture(
        job.form,
        job.dots.per_inch(),
        columns,
        &mut bands,
        gauge,
        sink,
        watcher,
    )?;
    Ok(bytes)
}
