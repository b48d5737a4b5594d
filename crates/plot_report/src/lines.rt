//! The lines of a report.
ghost use Rattle.std.specs.Prelude.{◌≡◌, ◌++◌, ◌∷◌, [], codes, decimal, length};
ghost use Rattle.std.specs.List.{join_with_byte};
ghost use Rattle.pieces.specs.Texts.{IsSound, Puts};
ghost use Rattle.plot_report.specs.Report.{space, line, page_line, sheets_line, corner_words, edges_line, summary_line};
ghost use Rattle.plot_report.specs.Report.{image_line, kind_words, letters, note_line};

use crate::report_page::ReportPage;
use crate::summary::StrokeSummary;
use crate::words::{put_number, put_word};
use devices::Sink;
use hpgl_plot::{Note, NoteKind};
use hpgl_text::ESCAPE;
use page_images::PageImage;
use pieces::Text;

// `page W H left below`
pub(crate) fn put_page_line<K: Sink>(text: &mut Text<'_, K>, page: ReportPage)
    requires sound { IsSound K.state text.old }
    ensures puts { Puts K.state text.old text.new (page_line page) }
{
    text.put(b"page");
    put_number(text, page.width);
    put_number(text, page.height);
    put_number(text, page.left);
    put_number(text, page.below);
    text.put(b"\n");
}

// `sheets K`
pub(crate) fn put_sheets_line<K: Sink>(text: &mut Text<'_, K>, sheets: usize)
    requires sound { IsSound K.state text.old }
    ensures puts { Puts K.state text.old text.new (sheets_line sheets) }
{
    text.put(b"sheets");
    put_number(text, sheets);
    text.put(b"\n");
}

// `strokes N`
pub(crate) fn put_strokes_line<K: Sink>(text: &mut Text<'_, K>, strokes: u32)
    requires sound { IsSound K.state text.old }
    ensures puts { Puts K.state text.old text.new (line (codes "strokes" ∷ decimal strokes ∷ [])) }
{
    text.put(b"strokes");
    put_number(text, strokes);
    text.put(b"\n");
}

// `areas K`
pub(crate) fn put_areas_line<K: Sink>(text: &mut Text<'_, K>, areas: usize)
    requires sound { IsSound K.state text.old }
    ensures puts { Puts K.state text.old text.new (line (codes "areas" ∷ decimal areas ∷ [])) }
{
    text.put(b"areas");
    put_number(text, areas);
    text.put(b"\n");
}

// `pen P strokes N widest G box X0 Y0 X1 Y1`
pub(crate) fn put_pen_line<K: Sink>(text: &mut Text<'_, K>, pen: u8, of: StrokeSummary)
    requires sound { IsSound K.state text.old }
    ensures puts { Puts K.state text.old text.new (summary_line pen of) }
{
    text.put(b"pen");
    put_number(text, pen);
    put_count(text, b"strokes", of.strokes);
    put_count(text, b"widest", of.widest);
    put_box(text, of);
    text.put(b"\n");
}

// `pen P areas K edges E box X0 Y0 X1 Y1`
pub(crate) fn put_edges_line<K: Sink>(
    text: &mut Text<'_, K>,
    pen: u8,
    areas: u32,
    of: StrokeSummary,
)
    requires sound { IsSound K.state text.old }
    ensures puts { Puts K.state text.old text.new (edges_line pen areas of) }
{
    text.put(b"pen");
    put_number(text, pen);
    put_count(text, b"areas", areas);
    put_count(text, b"edges", of.strokes);
    put_box(text, of);
    text.put(b"\n");
}

// `images N`
pub(crate) fn put_images_line<K: Sink>(text: &mut Text<'_, K>, images: usize)
    requires sound { IsSound K.state text.old }
    ensures puts { Puts K.state text.old text.new (line (codes "images" ∷ decimal images ∷ [])) }
{
    text.put(b"images");
    put_number(text, images);
    text.put(b"\n");
}

// `image COLUMNS ROWS DOTS box X0 Y0 X1 Y1`
pub(crate) fn put_image_line<K: Sink>(text: &mut Text<'_, K>, image: &PageImage)
    requires sound { IsSound K.state text.old }
    ensures puts { Puts K.state text.old text.new (image_line image.now) }
{
    text.put(b"image");
    put_number(text, image.image.width);
    put_number(text, image.rows());
    put_number(text, image.image.settings.resolution.number());
    put_box(text, StrokeSummary::of_one(&image.frame));
    text.put(b"\n");
}

// A word and its number.
fn put_count<K: Sink>(text: &mut Text<'_, K>, word: &[u8], count: u32)
    requires sound { IsSound K.state text.old }
    ensures puts { Puts K.state text.old text.new ((space ∷ word.now) ++ (space ∷ decimal count)) }
{
    put_word(text, word);
    put_number(text, count);
}

// `box` and its corners.
fn put_box<K: Sink>(text: &mut Text<'_, K>, of: StrokeSummary)
    requires sound { IsSound K.state text.old }
    ensures puts { Puts K.state text.old text.new (space ∷ join_with_byte space (codes "box" ∷ corner_words of)) }
{
    put_word(text, b"box");
    put_number(text, of.least_x);
    put_number(text, of.least_y);
    put_number(text, of.greatest_x);
    put_number(text, of.greatest_y);
}

// `note AT`, and then what is noted there
pub(crate) fn put_note_line<K: Sink>(text: &mut Text<'_, K>, note: &Note)
    requires sound { IsSound K.state text.old }
    ensures puts { Puts K.state text.old text.new (note_line note.now) }
    ensures letters { length note.now.code ≡ 2 }
{
    text.put(b"note");
    put_number(text, note.at);
    put_kind(text, note);
    text.put(b"\n");
}

// The word of what is noted, and then the two letters or the stray byte.
fn put_kind<K: Sink>(text: &mut Text<'_, K>, note: &Note)
    requires sound { IsSound K.state text.old }
    ensures puts { Puts K.state text.old text.new (space ∷ join_with_byte space (kind_words note.now.kind note.now.code)) }
    ensures letters { length note.now.code ≡ 2 }
{
    let code = letters_of(&note.code);
    match note.kind {
        NoteKind::Skipped => put_words(text, b"skipped", code),
        NoteKind::Bad => put_words(text, b"bad", code),
        NoteKind::Axis => put_words(text, b"axis", code),
        NoteKind::Open => put_words(text, b"open", code),
        NoteKind::Stray(byte) => {
            put_word(text, b"stray");
            put_number(text, byte);
        }
    }
}

// The letters of an instruction, or those that an escape has in notes.
fn letters_of(code: &[u8; 2]) -> &[u8]
    ensures { result.now ≡ letters code.now }
{
    if code[0] == ESCAPE { b"ESC" } else { code }
}

// Two words.
fn put_words<K: Sink>(text: &mut Text<'_, K>, first: &[u8], second: &[u8])
    requires sound { IsSound K.state text.old }
    ensures puts { Puts K.state text.old text.new ((space ∷ first.now) ++ (space ∷ second.now)) }
{
    put_word(text, first);
    put_word(text, second);
}
