//! The picture in a form of shapes of a drawing.
ghost use Rattle.std.specs.Prelude.{◌≡◌, ◌+◌, ◌-◌, ◌^◌, ◌<◌, ◌≤◌, IfErr, true, false, length};
ghost use Rattle.page_images.specs.Views.{images_in};
ghost use Rattle.rows.specs.Contents.{contents_in};
ghost use Rattle.rows.specs.Boxes.{strip_boxes};
ghost use Rattle.conversion.specs.PageJobs.{is_possible_in, on_page, rows_on, times_on};
ghost use Rattle.conversion.specs.Conversions.{is_write};
ghost use Rattle.conversion.specs.Sheets.{TellsOf, WritesShapes, is_all_off_page};
ghost use Rattle.rows.specs.Watching.{IsTold};

use crate::done::Done;
use crate::fault::Fault;
use crate::outcome::Outcome;
use crate::page_job::{has_too_many_pixels, on_page, smoothing_on};
use crate::place::Drawing;
use crate::shown::Shown;
use devices::Sink;
use image_places::are_images_off_page;
use page_fit::{census_of, is_off_page};
use page_images::PageImages;
use picture_job::{Job, RowChoice};
use plot_page::{Page, PenSet};
use rows::{Contents, Watcher, end_of, paint};
use std::alloc::Global;
use stroke_raster::Gauge;

/// Writes the picture in a form, or at most so many rows of it, which is possible, of these shapes of a drawing, on the page
/// where the drawing lies. The job's page is not used. The errors are those of `write`, but for `Resolution`.
#[tactic(auto, using(rows::proofs::Watched::not_told))]
pub(crate) fn write_shapes<G: Gauge, K: Sink, W: Watcher>(
    alloc: Global,
    shown: Shown<'_>,
    job: &Job,
    rows: RowChoice,
    gauge: &mut G,
    sink: &mut K,
    watcher: &mut W,
) -> Result<Outcome, Fault>
    requires possible { is_possible_in shown.choice.pixels rows.smoothing.times job.now ≡ true }
    requires sinking { (K.state sink.old).faults < 2 ^ 64 - 1 }
    ensures writes { WritesShapes shown.entry.choice rows job.now shown.entry.drawing.now (contents_in shown.entry.contents)
        (G.reaches gauge.old) (K.state sink.old) (K.state sink.new) result }
    ensures tests { G.count gauge.new ≤ G.count gauge.old
        + strip_boxes (times_on shown.entry.choice shown.entry.drawing.now.page job.now rows.smoothing) rows.most_rows
        (on_page shown.entry.choice shown.entry.drawing.now.page job.now) shown.entry.contents.shapes.strokes.now }
    ensures same { G.reaches gauge.new ≡ G.reaches gauge.old }
    ensures told { IsTold is_write W.hears (rows_on shown.entry.choice shown.entry.drawing.now.page job.now rows.most_rows)
        watcher.old watcher.new result }
    ensures untouched { IfErr result (λ fault. is_write fault ≡ false → sink.new ≡ sink.old) }
{
    let page = shown.drawing.page;
    let rows = RowChoice {
        smoothing: smoothing_on(shown.choice, page, job, rows.smoothing),
        ..rows
    };
    let job = on_page(shown.choice, page, job);
    if has_too_many_pixels(&page, job.dots) {
        return Err(Fault::Pixels);
    }
    let bytes = match paint(alloc, &job, rows, shown.contents, gauge, sink, watcher) {
        Ok(bytes) => bytes,
        Err(fault) => return Err(Fault::from(fault)),
    };
    let end = end_of(rows.most_rows, job.first_row, job.dots.rows(&page));
    let count = end - job.first_row;
    Ok(outcome_of(shown.drawing, job.pens, shown.contents, count, bytes))
}

/// What is told of a picture of what is on a drawing, of which so many rows and bytes were written.
pub(crate) fn outcome_of(
    drawing: &Drawing,
    pens: PenSet,
    contents: Contents<'_>,
    rows: u32,
    bytes: u64,
) -> Outcome
    ensures rows { result.done.rows ≡ rows }
    ensures bytes { result.done.bytes ≡ bytes }
    ensures tells { TellsOf drawing.now pens (contents_in contents.entry) result }
{
    let shapes = contents.shapes;
    Outcome {
        done: Done {
            rows,
            bytes,
            strokes: shapes.stroke_count(),
            areas: shapes.areas.count(),
            images: image_count(contents.images),
            notes: drawing.lines.notes,
        },
        placement: drawing.placement,
        sheets: drawing.lines.sheets,
        is_off_page: is_all_off_page(contents, &pens, &drawing.page),
        census: if drawing.counts {
            Some(census_of(shapes, pens, &drawing.page))
        } else {
            None
        },
    }
}

// How many images there are.
fn image_count(images: PageImages<'_>) -> usize
    ensures { result ≡ length (images_in images.entry) }
{
    images.list.len()
}

// Whether all images, and all that the selected pens draw, lie off the page.
fn is_all_off_page(contents: Contents<'_>, pens: &PenSet, page: &Page) -> bool
    ensures { result ≡ is_all_off_page pens.now page.now (contents_in contents.entry) }
{
    is_off_page(contents.shapes, pens, page) && are_images_off_page(contents.images.list, page)
}
