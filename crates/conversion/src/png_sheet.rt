//! The PNG of shapes of a drawing.
ghost use Rattle.std.specs.Prelude.{◌≡◌, ◌+◌, ◌-◌, ◌^◌, ◌<◌, ◌≤◌, IfErr, true, false};
ghost use Rattle.rows.specs.Contents.{contents_in};
ghost use Rattle.conversion.specs.Conversions.{is_write};
ghost use Rattle.conversion.specs.PageJobs.{is_png_possible_in, png_on_page, png_rows_on};
ghost use Rattle.rows.specs.Documents.{png_boxes};
ghost use Rattle.conversion.specs.Sheets.{WritesPng};
ghost use Rattle.rows.specs.Watching.{IsTold};

use crate::fault::Fault;
use crate::outcome::Outcome;
use crate::page_job::{has_too_many_pixels, png_on_page};
use crate::sheet::outcome_of;
use crate::shown::Shown;
use devices::Sink;
use picture_job::PngJob;
use rows::{Watcher, paint_png};
use std::alloc::Global;
use stroke_raster::Gauge;

/// Writes the PNG, which is possible, of these shapes of a drawing, on the page where the drawing lies, and gives the sink
/// back. The job's page is not used. The errors are those of `write`, but for `Resolution`.
#[tactic(auto, using(rows::proofs::Watched::not_told))]
pub(crate) fn write_png_shapes<G: Gauge, K: Sink, W: Watcher>(
    alloc: Global,
    shown: Shown<'_>,
    job: &PngJob,
    gauge: &mut G,
    sink: K,
    watcher: &mut W,
) -> (K, Result<Outcome, Fault>)
    requires possible { is_png_possible_in shown.choice.pixels job.now ≡ true }
    requires sinking { (K.state sink).faults < 2 ^ 64 - 1 }
    ensures writes { WritesPng shown.entry.choice job.now shown.entry.drawing.now (contents_in shown.entry.contents)
        (G.reaches gauge.old) (K.state sink) (K.state result.0) result.1 }
    ensures tests { G.count gauge.new ≤ G.count gauge.old
        + png_boxes (png_on_page shown.entry.choice shown.entry.drawing.now.page job.now) shown.entry.contents.shapes.strokes.now }
    ensures same { G.reaches gauge.new ≡ G.reaches gauge.old }
    ensures told { IsTold is_write W.hears (png_rows_on shown.entry.choice shown.entry.drawing.now.page job.now)
        watcher.old watcher.new result.1 }
    ensures untouched { IfErr result.1 (λ fault. is_write fault ≡ false → result.0 ≡ sink) }
{
    let page = shown.drawing.page;
    let job = png_on_page(shown.choice, page, job);
    if has_too_many_pixels(&page, job.dots) {
        return (sink, Err(Fault::Pixels));
    }
    let (sink, painted) = paint_png(alloc, &job, shown.contents, gauge, sink, watcher);
    match painted {
        Ok(()) => {
            let rows = job.dots.rows(&page);
            let outcome = outcome_of(shown.drawing, job.pens, shown.contents, rows, 0);
            (sink, Ok(outcome))
        }
        Err(fault) => (sink, Err(Fault::from(fault))),
    }
}
