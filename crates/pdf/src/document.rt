//! The whole document.
ghost use Rattle.std.specs.Prelude.{◌≡◌, ◌+◌, ◌-◌, ◌*◌, ◌^◌, ◌<◌, ◌≤◌, length};
ghost use Rattle.areas.specs.Views.{areas_in};
ghost use Rattle.labels.specs.Sheets.{all_counted};
ghost use Rattle.pieces.specs.Texts.{IsNew, IsSound, Puts, count_of};
ghost use Rattle.plot_page.specs.declared.stroke.TheConstants.{MOST_STROKES};
ghost use Rattle.pdf.specs.Documents.{end_text, header_text, version_text};
ghost use Rattle.pdf.specs.Texts.{letter_count};
ghost use Rattle.pdf.specs.Writings.{WritesPdf};
ghost use Rattle.pdf.specs.declared.counts.TheConstants.{MOST_LETTERS};

use crate::fonts::{font_count, put_fonts};
use crate::front::{put_front, put_shared_objects};
use crate::layers::put_layers;
use crate::pages::put_pages;
use crate::pens::{PENS, list_pens};
use crate::rows::{ROWS, list_rows};
use crate::table::{put_table, put_trailer};
use crate::units::{PageUnit, unit_of};
use deflate::TextEncoder;
use devices::{Sink, WriteFault};
use pieces::Text;
use stroke_runs::SheetView;

/// How many offsets `write_pdf` needs room for, to write so many pages.
pub fn room_for(pages: usize) -> usize
    requires { pages ≤ MOST_STROKES }
    ensures { result ≡ 773 + 3 * pages }
{
    773 + 3 * pages
}

/// Writes the shapes of the selected pens as a PDF document, of version 1.5, or 1.6 if a side of the page is over 203,200
/// plotter units, 14,400 points. Each sheet is a page. The first sheet has
/// the strokes up to the first end, which says how many they are, each other one those up to its end. All pages have the
/// size of the page given. The producer is `plotraster` in this version, which has no parenthesis and no backslash. An
/// empty title is none.
///
/// Each run of strokes with the same pen, colour, width and window is a path of at most 1,000 strokes and with a width
/// of at least 24 grains (1/16 plotter unit). An area is a path by itself, of all of its edges, which is filled in the colour
/// of its first edge, and drawn as that. A shape whose first stroke has an empty window is left out. A window other than the
/// page is a clipping path. Each pen that draws a stroke is a layer, `Pen 2`.
///
/// A page has the labels before whose strokes its sheet ends, of which those with a stroke that is drawn are shown: their
/// text lies over their letters, invisible, so that a search finds it. A code point over U+FFFF is written as U+FFFD. All
/// labels have at most `MOST_LETTERS` letters, of which `has_few_letters` is the test.
///
/// Returns how many bytes the document has. It asks for no memory: where objects begin is noted in `offsets`, and the
/// encoder begins a stream for each page, whatever it encoded before. Counts of bytes stop at 2^64 - 1, also in the document.
///
/// Errors: a `WriteFault` if and only if the sink fails; it has then taken the first `bytes` bytes of such a document.
pub fn write_pdf<K: Sink>(
    version: &str,
    title: &str,
    view: &SheetView<'_>,
    ends: &[usize],
    offsets: &mut [u64],
    encoder: &mut TextEncoder,
    sink: &mut K,
) -> Result<u64, WriteFault>
    requires sound { (K.state sink.old).faults < 2 ^ 64 - 1 }
    requires pages { length ends.now ≤ MOST_STROKES }
    requires letters { letter_count view.now.labels.now ≤ MOST_LETTERS }
    requires room { 773 + 3 * length ends.now ≤ length offsets.old }
    ensures writes { WritesPdf (K.state sink.old) (K.state sink.new) version.now title.now view.now.page.now view.now.pens.now
        view.now.strokes.now (areas_in view.now.areas) ends.now (all_counted view.now.before view.now.labels.now) result }
{
    let mut text = Text::new(sink);
    put_document(&mut text, version, title, view, ends, offsets, encoder)
}

// Writes the document as a new text.
fn put_document<K: Sink>(
    text: &mut Text<'_, K>,
    version: &str,
    title: &str,
    view: &SheetView<'_>,
    ends: &[usize],
    offsets: &mut [u64],
    encoder: &mut TextEncoder,
) -> Result<u64, WriteFault>
    requires sound { IsSound K.state text.old }
    requires new { IsNew text.old }
    requires pages { length ends.now ≤ MOST_STROKES }
    requires letters { letter_count view.now.labels.now ≤ MOST_LETTERS }
    requires room { 773 + 3 * length ends.now ≤ length offsets.old }
    ensures same { text.new.sink.ghost_name ≡ text.old.sink.ghost_name }
    ensures writes { WritesPdf (K.state text.old.sink.now) (K.state text.new.sink.now) version.now title.now
        view.now.page.now view.now.pens.now view.now.strokes.now (areas_in view.now.areas) ends.now
        (all_counted view.now.before view.now.labels.now) result }
{
    let mut list = [0; PENS];
    let count = list_pens(view.pens, view.strokes, &mut list);
    let pens = &list[..count];
    let mut list = [0; ROWS];
    let row_count = list_rows(view, &mut list);
    let rows = &list[..row_count];
    put_header(text, unit_of(view.page));
    put_front(text, offsets, version, title);
    put_shared_objects(text, offsets, view.page, pens, rows, ends);
    put_layers(text, offsets, 4, pens);
    let layers = 4 + count as u32;
    put_fonts(text, offsets, layers, rows);
    let fonts = layers + font_count(rows);
    put_pages(text, offsets, encoder, fonts, view, ends);
    let objects = fonts as usize + 3 * ends.len();
    put_end(text, &offsets[..objects]);
    text.finish()
}

// Puts the version, and a comment with bytes that no text has.
fn put_header<K: Sink>(text: &mut Text<'_, K>, unit: PageUnit)
    requires sound { IsSound K.state text.old }
    ensures puts { Puts K.state text.old text.new (header_text unit) }
{
    text.put(version_of(unit));
    text.put(b"%\xE2\xE3\xCF\xD3\n");
}

// The version: units of more than a point are of PDF 1.6.
fn version_of(unit: PageUnit) -> &'static [u8]
    ensures { result.now ≡ version_text unit }
{
    match unit {
        PageUnit::One => b"%PDF-1.5\n",
        PageUnit::Two | PageUnit::Three => b"%PDF-1.6\n",
    }
}

// Puts the table of objects that begin there, and what comes after it.
fn put_end<K: Sink>(text: &mut Text<'_, K>, offsets: &[u64])
    requires sound { IsSound K.state text.old }
    requires few { length offsets.now < 2 ^ 31 }
    ensures puts { Puts K.state text.old text.new (end_text offsets.now (count_of text.old)) }
{
    let at = text.count();
    put_table(text, offsets);
    put_trailer(text, offsets.len() as u32, at);
}
