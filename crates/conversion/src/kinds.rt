//! Pictures of all kinds: in a form, as a PNG, or as a vector document.
ghost use Rattle.std.specs.Prelude.{◌≡◌, ◌+◌, ◌-◌, ◌^◌, ◌<◌, ◌≤◌, IfErr, false, true};
ghost use Rattle.conversion.specs.Conversions.{is_write};
ghost use Rattle.conversion.specs.Kinds.{IsToldOfPicture, WritesSheet, has_labels, most_tests, page_of, pens_of};

use crate::fault::Fault;
use crate::outcome::Outcome;
use crate::place::Drawing;
use crate::png_sheet::write_png_shapes;
use crate::request::Request;
use crate::sheet::write_shapes;
use crate::shown::Shown;
use crate::vector_sheet::write_vector_sheet;
use devices::Sink;
use picture_job::Picture;
use plot_page::{Page, PenSet};
use rows::Watcher;
use std::alloc::Global;
use stroke_raster::Gauge;

/// Writes the picture that is asked for of a sheet of a drawing, which counts from 1, or of all that is drawn for 0, on the page where the
/// drawing lies, and gives the sink back. The picture's page is not used. A pixel shows the pen and the colour of the last
/// shape of the selected pens that reaches it: a stroke, as the gauge says, or an area that has it inside, or an edge of which
/// reaches it. A vector document is named so.
///
/// A picture in a form has its head if its first row is 0, its rows from the first row on, all or at most so many, and
/// its foot if the last row is one of them. Each pixel of a smoothed PPM is the mean of n by n pixels of a picture
/// that is n times finer. Marks, PBM and PCL have no shades, and are written as without smoothing. If pixels are
/// chosen, the page has so many along its longer side, instead of the picture's resolution.
///
/// Of a PNG, reading it gives the size of the picture, its resolution in pixels a metre, and the colour of each pixel, which
/// is that of the PPM. Its palette is white and then each further colour of the selected strokes, in the order in which it
/// first comes; a picture of more than 256 colours has no palette. A smoothed picture is grey if its strokes are; else its
/// palette is white and each further colour of its pixels, if they are at most 256.
///
/// A vector document has the strokes and areas of the picture's pens as they are, by which it can be printed and enlarged at
/// will. Of all that is drawn an SVG has a group for each sheet, and a DXF layers, one above another, if sheets end, and a PDF
/// a page for each. The drawing has the labels of the plot, if they were kept.
///
/// The gauge makes at most as many tests as the boxes of the strokes and edges have pixels, whatever the band height. The
/// watcher is told after each band of rows how many are written, and nothing of a vector document; a picture without rows has
/// no bands.
///
/// Errors, in this order: `Pixels` if a picture that is no vector document has over 400,000 columns or rows; `Paint` for a band
/// height or a first row out of range; `Letters` if the labels have more letters than the format of a document takes; if the
/// sink fails, `Write`, or `Unfinished` for a PNG or a document, and what it has taken
/// of one is of no use. `Memory` comes when memory is refused. After every error but `Write` and `Unfinished` the sink is as
/// it was, and the watcher was told of nothing.
pub fn write<G: Gauge, K: Sink, W: Watcher>(
    alloc: Global,
    request: &Request<'_>,
    drawing: &Drawing,
    sheet: u32,
    gauge: &mut G,
    sink: K,
    watcher: &mut W,
) -> (K, Result<Outcome, Fault>)
    requires sinking { (K.state sink).faults < 2 ^ 64 - 1 }
    ensures writes { WritesSheet request.now.setup.choice request.now.picture.now request.now.naming
        (G.reaches gauge.old) drawing.now sheet (K.state sink) (K.state result.0) result.1 }
    ensures tests { G.count gauge.new ≤ G.count gauge.old
        + most_tests request.now.setup.choice request.now.picture.now drawing.now sheet }
    ensures same { G.reaches gauge.new ≡ G.reaches gauge.old }
    ensures told { IsToldOfPicture W.hears request.now.setup.choice request.now.picture.now drawing.now.page
        watcher.old watcher.new result.1 }
    ensures untouched { IfErr result.1 (λ fault. is_write fault ≡ false → result.0 ≡ sink) }
{
    let shown = Shown {
        drawing,
        contents: drawing.contents_on(sheet),
        choice: request.setup.choice,
    };
    let mut sink = sink;
    let picture = request.picture;
    match picture {
        Picture::Rows { job, rows } => {
            let outcome = write_shapes(alloc, shown, job, *rows, gauge, &mut sink, watcher);
            (sink, outcome)
        }
        Picture::Png(job) => write_png_shapes(alloc, shown, job, gauge, sink, watcher),
        Picture::Vector(job) => {
            let outcome = write_vector_sheet(alloc, drawing, sheet, job, request.naming, &mut sink);
            (sink, outcome)
        }
    }
}

/// The page of a picture, which its plot is drawn on if nothing else is chosen.
pub(crate) fn page_of(picture: &Picture) -> Page
    ensures { result ≡ page_of picture.now }
{
    match picture {
        Picture::Rows { job, .. } => job.page,
        Picture::Png(job) => job.page,
        Picture::Vector(job) => job.page,
    }
}

/// The pens of a picture.
pub(crate) fn pens_of(picture: &Picture) -> PenSet
    ensures { result ≡ pens_of picture.now }
{
    match picture {
        Picture::Rows { job, .. } => job.pens,
        Picture::Png(job) => job.pens,
        Picture::Vector(job) => job.pens,
    }
}

/// Whether a picture has the labels of the plot: a vector document, unless they are strokes only.
pub(crate) fn has_labels(picture: &Picture) -> bool
    ensures { result ≡ has_labels picture.now }
{
    match picture {
        Picture::Vector(job) => job.labels.has_text(),
        _ => false,
    }
}
