//! The vector document of a drawing: of all that is drawn, or of one sheet.
ghost use Rattle.std.specs.Prelude.{◌≡◌, ◌-◌, ◌^◌, ◌<◌, ◌≤◌, ◌↔◌, Err, IfErr, false, true, length};
ghost use Rattle.areas.specs.Views.{areas_in};
ghost use Rattle.labels.specs.Sheets.{all_counted};
ghost use Rattle.pdf.specs.Texts.{letter_count};
ghost use Rattle.pdf.specs.declared.counts.TheConstants.{MOST_LETTERS};
ghost use Rattle.plot_page.specs.declared.stroke.TheConstants.{MOST_STROKES};
ghost use Rattle.conversion.specs.Conversions.{is_write};
ghost use Rattle.conversion.specs.Rules.{ends_of};
ghost use Rattle.conversion.specs.Vectors.{IsPdf, IsVector, PutsVector, WritesVector, contents_seen, dxf_of, has_too_many_letters, is_letters, labels_written, svg_of, title_kept};

use crate::fault::Fault;
use crate::naming::{MOST_CHARACTERS, Naming};
use crate::outcome::Outcome;
use crate::page_ends::page_ends;
use crate::place::Drawing;
use crate::sheet::outcome_of;
use deflate::TextEncoder;
use devices::Sink;
use dxf::{write_dxf, write_dxf_sheets};
use full_plot::labels_on;
use labels::Label;
use pdf::{has_few_letters, room_for, write_pdf};
use picture_job::{LabelChoice, VectorFormat, VectorJob};
use std::alloc::Global;
use stroke_runs::SheetView;
use svg::{ClipPaths, write_svg, write_svg_sheets};

/// Writes the vector document of a sheet of a drawing, which counts from 1, or of all that is drawn for 0, on the page where
/// the drawing lies. The job's page is not used. Of all that is drawn an SVG has a group for each sheet, and a DXF layers, one
/// above another, if sheets end, and a PDF a page for each. The drawing has the labels of the plot, if they were kept; they are
/// written unless the job has them as strokes only.
///
/// Errors: `Letters` if the labels have more letters than a PDF takes, and it is one; `Unfinished` if the sink fails, and what it has
/// taken is of no use; `Memory` if memory is refused. The sink is as it was after `Letters` and `Memory`.
pub fn write_vector_sheet<K: Sink>(
    alloc: Global,
    drawing: &Drawing,
    sheet: u32,
    job: &VectorJob,
    naming: Naming<'_>,
    sink: &mut K,
) -> Result<Outcome, Fault>
    requires sinking { (K.state sink.old).faults < 2 ^ 64 - 1 }
    ensures writes { WritesVector job.now naming.entry drawing.now sheet (K.state sink.old) (K.state sink.new) result }
    ensures untouched { IfErr result (λ fault. is_write fault ≡ false → sink.new ≡ sink.old) }
{
    let lines = &drawing.lines;
    let contents = drawing.contents_on(sheet);
    let shapes = contents.shapes;
    let ends = ends_in(lines.ends.as_slice(), sheet);
    let image_ends = ends_in(lines.image_ends.as_slice(), sheet);
    let (labels, before) = labels_written(job.labels, drawing, sheet);
    let view = SheetView {
        page: &drawing.page,
        pens: &job.pens,
        strokes: shapes.strokes,
        areas: shapes.areas,
        labels,
        before,
        images: contents.images,
    };
    match job.format {
        VectorFormat::Svg => put_svg(alloc, &view, ends, image_ends, sink)?,
        VectorFormat::Pdf => put_pdf(alloc, naming, &view, ends, sink)?,
        VectorFormat::Dxf => put_dxf(&view, ends, sink)?,
    }
    Ok(outcome_of(drawing, job.pens, contents, 0, 0))
}

// The labels of a sheet that are written, and how many strokes come before the sheet: none if labels are strokes only.
fn labels_written(labels: LabelChoice, drawing: &Drawing, sheet: u32) -> (&[Label], usize)
    ensures { all_counted result.1 result.0.now ≡ labels_written labels drawing.now sheet }
{
    if !labels.has_text() {
        return (&[], 0);
    }
    let lines = &drawing.lines;
    labels_on(
        lines.labels.as_slice(),
        lines.ends.as_slice(),
        lines.strokes.len(),
        sheet,
    )
}

// Where sheets end in what is drawn of a sheet: nowhere, unless it is all.
fn ends_in(ends: &[usize], sheet: u32) -> &[usize]
    ensures { result.now ≡ ends_of sheet ends.now }
{
    if sheet == 0 { ends } else { &[] }
}

// Writes the SVG of what is shown, among whose strokes and images sheets end there.
fn put_svg<K: Sink>(
    alloc: Global,
    view: &SheetView<'_>,
    ends: &[usize],
    image_ends: &[usize],
    sink: &mut K,
) -> Result<(), Fault>
    requires few { length view.now.strokes.now ≤ MOST_STROKES }
    requires sinking { (K.state sink.old).faults < 2 ^ 64 - 1 }
    ensures puts { PutsVector (λ document. document ≡ svg_of view.now.page.now view.now.pens.now (contents_seen view.now)
        ends.now image_ends.now (all_counted view.now.before view.now.labels.now))
        (K.state sink.old) (K.state sink.new) result }
    ensures letters { IfErr result (λ fault. is_letters fault ≡ false) }
    ensures untouched { IfErr result (λ fault. is_write fault ≡ false → sink.new ≡ sink.old) }
{
    let clips = ClipPaths::of(alloc, view.page, view.pens, view.strokes)?;
    let written = if ends.is_empty() {
        write_svg(view, &clips, sink)
    } else {
        write_svg_sheets(view, ends, image_ends, &clips, sink)
    };
    match written {
        Ok(_) => Ok(()),
        Err(_) => Err(Fault::Unfinished),
    }
}

// Writes the DXF of the same.
fn put_dxf<K: Sink>(view: &SheetView<'_>, ends: &[usize], sink: &mut K) -> Result<(), Fault>
    requires few { length view.now.strokes.now ≤ MOST_STROKES }
    requires sinking { (K.state sink.old).faults < 2 ^ 64 - 1 }
    ensures puts { PutsVector (λ document. document ≡ dxf_of view.now.page.now view.now.pens.now view.now.strokes.now
        (areas_in view.now.areas) ends.now (all_counted view.now.before view.now.labels.now))
        (K.state sink.old) (K.state sink.new) result }
    ensures letters { IfErr result (λ fault. is_letters fault ≡ false) }
    ensures untouched { IfErr result (λ fault. is_write fault ≡ false → sink.new ≡ sink.old) }
{
    let is_alone = ends.is_empty();
    let written = if is_alone {
        write_dxf(view, sink)
    } else {
        write_dxf_sheets(view, ends, sink)
    };
    match written {
        Ok(_) => Ok(()),
        Err(_) => Err(Fault::Unfinished),
    }
}

// Writes the PDF of the same.
fn put_pdf<K: Sink>(
    alloc: Global,
    naming: Naming<'_>,
    view: &SheetView<'_>,
    ends: &[usize],
    sink: &mut K,
) -> Result<(), Fault>
    requires few { length view.now.strokes.now ≤ MOST_STROKES }
    requires sinking { (K.state sink.old).faults < 2 ^ 64 - 1 }
    ensures puts { PutsVector (IsPdf naming.entry view.now.page.now view.now.pens.now view.now.strokes.now
        (areas_in view.now.areas) ends.now (all_counted view.now.before view.now.labels.now))
        (K.state sink.old) (K.state sink.new) result }
    ensures letters { (result ≡ Err Fault.Letters)
        ↔ (has_too_many_letters VectorFormat.Pdf (all_counted view.now.before view.now.labels.now) ≡ true) }
    ensures untouched { IfErr result (λ fault. is_write fault ≡ false → sink.new ≡ sink.old) }
{
    if !has_few_letters(view.labels) {
        return Err(Fault::Letters);
    }
    put_fitting_pdf(alloc, naming, view, ends, sink)
}

// The same of labels that have few enough letters.
fn put_fitting_pdf<K: Sink>(
    alloc: Global,
    naming: Naming<'_>,
    view: &SheetView<'_>,
    ends: &[usize],
    sink: &mut K,
) -> Result<(), Fault>
    requires few { length view.now.strokes.now ≤ MOST_STROKES }
    requires texts { letter_count view.now.labels.now ≤ MOST_LETTERS }
    requires sinking { (K.state sink.old).faults < 2 ^ 64 - 1 }
    ensures puts { PutsVector (IsPdf naming.entry view.now.page.now view.now.pens.now view.now.strokes.now
        (areas_in view.now.areas) ends.now (all_counted view.now.before view.now.labels.now))
        (K.state sink.old) (K.state sink.new) result }
    ensures letters { IfErr result (λ fault. is_letters fault ≡ false) }
    ensures untouched { IfErr result (λ fault. is_write fault ≡ false → sink.new ≡ sink.old) }
{
    let pages = page_ends(alloc, view.strokes.len(), ends)?;
    let pages = pages.as_slice();
    let mut offsets = vec![in alloc; 0u64; room_for(pages.len())]?;
    let mut encoder = TextEncoder::new(alloc)?;
    let written = write_pdf(
        naming.version,
        title_kept(naming.title),
        view,
        pages,
        offsets.as_mut_slice(),
        &mut encoder,
        sink,
    );
    match written {
        Ok(_) => Ok(()),
        Err(_) => Err(Fault::Unfinished),
    }
}

// The title, unless it is too long.
fn title_kept(title: &str) -> &str
    ensures { result.now ≡ title_kept title.now }
{
    if title.len() <= MOST_CHARACTERS {
        title
    } else {
        ""
    }
}
