//! The whole report.
ghost use Rattle.std.specs.Prelude.{◌≡◌, ◌+◌, ◌-◌, ◌^◌, ◌<◌, ◌≤◌, ◌*◌, ◌++◌, length, flat_map, IfOk};
ghost use Rattle.plot_page.specs.declared.stroke.TheConstants.{MOST_STROKES};
ghost use Rattle.devices.specs.Sinks.{Writes};
ghost use Rattle.pieces.specs.Texts.{IsNew, IsSound, Puts};
ghost use Rattle.areas.specs.Shapes.{shapes};
ghost use Rattle.areas.specs.Views.{areas_in, shapes_in};
ghost use Rattle.plot_report.specs.Report.{report_of, full_report_of, areas_line, image_line, images_line, note_line, shape_lines};
ghost use Rattle.plot_report.specs.Summaries.{summary_lines, summary_text};

use crate::lines::{
    put_areas_line, put_edges_line, put_image_line, put_images_line, put_note_line, put_page_line,
    put_pen_line, put_sheets_line, put_strokes_line,
};
use crate::pens::{PENS, PenSummary, summarise};
use crate::report_page::ReportPage;
use areas::Shapes;
use devices::{Sink, WriteFault};
use hpgl_plot::NoteSource;
use page_images::PageImage;
use pieces::Text;
use plot_page::Stroke;

/// The most notes of a report: as many as the longest plot has bytes.
pub const MOST_NOTES: usize = 67_108_864;

/// Writes the report on a plot, as lines of text: the page, how many strokes there are, a line for
/// each pen that has some, and a line for each note.
///
/// Returns how many bytes the report has. It asks for no memory.
///
/// Errors: a `WriteFault` if and only if the sink fails; it has then taken the first `bytes` bytes.
pub fn write_report<N: NoteSource + Drop, K: Sink>(
    page: ReportPage,
    strokes: &[Stroke],
    notes: N,
    sink: &mut K,
) -> Result<u64, WriteFault>
    requires sound { (K.state sink.old).faults < 2 ^ 64 - 1 }
    requires strokes { length strokes.now ≤ MOST_STROKES }
    requires notes { length (N.notes notes) ≤ MOST_NOTES }
    ensures writes { Writes (K.state sink.old) (K.state sink.new)
        (report_of page strokes.now (N.notes notes)) result }
    ensures count { IfOk result (λ n. n ≡ length (report_of page strokes.now (N.notes notes))) }
{
    let mut text = Text::new(sink);
    put_report(&mut text, page, strokes, notes)
}

/// The same in the profile full. The line after that of the page says how many sheets there are. The strokes that are edges of
/// areas do not count as strokes: if there are areas, the line after that of the strokes says how many, and a pen that has areas
/// has a line for them, after the one for its strokes. If there are images, the line before those of the pens says how many, and
/// after those of the pens each image has a line.
///
/// Errors: those of `write_report`.
pub fn write_full_report<N: NoteSource + Drop, K: Sink>(
    page: ReportPage,
    sheets: usize,
    shapes: Shapes<'_>,
    images: &[PageImage],
    notes: N,
    sink: &mut K,
) -> Result<u64, WriteFault>
    requires sound { (K.state sink.old).faults < 2 ^ 64 - 1 }
    requires strokes { length shapes.strokes.now ≤ MOST_STROKES }
    requires images { length images.now ≤ MOST_NOTES }
    requires notes { length (N.notes notes) ≤ MOST_NOTES }
    ensures writes { Writes (K.state sink.old) (K.state sink.new)
        (full_report_of page sheets (shapes_in shapes.entry) images.now (N.notes notes)) result }
    ensures count { IfOk result (λ n. n ≡ length (full_report_of page sheets (shapes_in shapes.entry) images.now (N.notes notes))) }
{
    let mut text = Text::new(sink);
    put_full_report(&mut text, page, sheets, shapes, images, notes)
}

// Writes the report as a new text.
fn put_report<N: NoteSource + Drop, K: Sink>(
    text: &mut Text<'_, K>,
    page: ReportPage,
    strokes: &[Stroke],
    notes: N,
) -> Result<u64, WriteFault>
    requires sound { IsSound K.state text.old }
    requires new { IsNew text.old }
    requires strokes { length strokes.now ≤ MOST_STROKES }
    requires notes { length (N.notes notes) ≤ MOST_NOTES }
    ensures same { text.new.sink.ghost_name ≡ text.old.sink.ghost_name }
    ensures writes { Writes (K.state text.old.sink.now) (K.state text.new.sink.now)
        (report_of page strokes.now (N.notes notes)) result }
    ensures count { IfOk result (λ n. n ≡ length (report_of page strokes.now (N.notes notes))) }
{
    put_page_line(text, page);
    put_shapes(text, Shapes::of_strokes(strokes), 0);
    put_notes(text, notes);
    text.finish()
}

// Writes the report in the profile full as a new text.
fn put_full_report<N: NoteSource + Drop, K: Sink>(
    text: &mut Text<'_, K>,
    page: ReportPage,
    sheets: usize,
    shapes: Shapes<'_>,
    images: &[PageImage],
    notes: N,
) -> Result<u64, WriteFault>
    requires sound { IsSound K.state text.old }
    requires new { IsNew text.old }
    requires strokes { length shapes.strokes.now ≤ MOST_STROKES }
    requires images { length images.now ≤ MOST_NOTES }
    requires notes { length (N.notes notes) ≤ MOST_NOTES }
    ensures same { text.new.sink.ghost_name ≡ text.old.sink.ghost_name }
    ensures writes { Writes (K.state text.old.sink.now) (K.state text.new.sink.now)
        (full_report_of page sheets (shapes_in shapes.entry) images.now (N.notes notes)) result }
    ensures count { IfOk result (λ n. n ≡ length (full_report_of page sheets (shapes_in shapes.entry) images.now (N.notes notes))) }
{
    put_page_line(text, page);
    put_sheets_line(text, sheets);
    put_shapes(text, shapes, images.len());
    put_images(text, images);
    put_notes(text, notes);
    text.finish()
}

// Puts the lines of the strokes, of the areas and of so many images, and those of the pens.
fn put_shapes<K: Sink>(text: &mut Text<'_, K>, of: Shapes<'_>, images: usize)
    requires sound { IsSound K.state text.old }
    requires strokes { length of.strokes.now ≤ MOST_STROKES }
    ensures puts { Puts K.state text.old text.new (shape_lines images (shapes of.entry.strokes.now (areas_in of.entry.areas))) }
{
    let summaries = summarise(of);
    put_strokes_line(text, summaries.strokes);
    put_areas(text, of.areas.count());
    put_image_count(text, images);
    put_pen_lines(text, &summaries.pens);
}

// Puts a line for how many areas there are, unless there are none.
fn put_areas<K: Sink>(text: &mut Text<'_, K>, areas: usize)
    requires sound { IsSound K.state text.old }
    ensures puts { Puts K.state text.old text.new (areas_line areas) }
{
    if areas > 0 {
        put_areas_line(text, areas);
    }
}

// Puts a line for how many images there are, unless there are none.
fn put_image_count<K: Sink>(text: &mut Text<'_, K>, images: usize)
    requires sound { IsSound K.state text.old }
    ensures puts { Puts K.state text.old text.new (images_line images) }
{
    if images > 0 {
        put_images_line(text, images);
    }
}

// Puts a line for each image.
fn put_images<K: Sink>(text: &mut Text<'_, K>, images: &[PageImage])
    requires sound { IsSound K.state text.old }
    ensures puts { Puts K.state text.old text.new (flat_map image_line images.now) }
{
    for image in images {
        put_image_line(text, image);
    }
}

// Puts the lines of each pen, from pen 1 on.
fn put_pen_lines<K: Sink>(text: &mut Text<'_, K>, pens: &[PenSummary; PENS])
    requires sound { IsSound K.state text.old }
    ensures puts { Puts K.state text.old text.new (summary_lines pens.now 255) }
{
    for pen in 1..PENS {
        put_lines_of_pen(text, pen as u8, pens[pen]);
    }
}

// Puts a line for the strokes of a pen, if it has some, and a line for its areas, if it has some.
fn put_lines_of_pen<K: Sink>(text: &mut Text<'_, K>, pen: u8, of: PenSummary)
    requires sound { IsSound K.state text.old }
    ensures puts { Puts K.state text.old text.new (summary_text pen of) }
{
    if of.strokes.strokes > 0 {
        put_pen_line(text, pen, of.strokes);
    }
    if of.areas > 0 {
        put_edges_line(text, pen, of.areas, of.edges);
    }
}

// Puts the lines of the notes.
fn put_notes<N: NoteSource + Drop, K: Sink>(text: &mut Text<'_, K>, notes: N)
    requires sound { IsSound K.state text.old }
    ensures puts { Puts K.state text.old text.new (flat_map note_line (N.notes notes)) }
    ensures few { length (flat_map note_line (N.notes notes)) ≤ 1000 * length (N.notes notes) }
{
    let mut rest = notes;
    'notes: while let Some(note) = rest.next_note() {
        put_note_line(text, &note);
    }
}
