//! Texts of labels: invisible letters over those of the strokes, which a reader finds.
ghost use Rattle.std.specs.Prelude.{◌≡◌, ◌≤◌, [], ◌∷◌, length, None};
ghost use Rattle.std.specs.List.{list_any};
ghost use Rattle.labels.specs.Sheets.{all_counted, counted};
ghost use Rattle.pdf.specs.Contained.{Fills, IsOpen};
ghost use Rattle.pdf.specs.Contents.{labels_operators, lines_operators, text_operators, texts_operators};
ghost use Rattle.pdf.specs.Operators.{operators_text};
ghost use Rattle.pdf.specs.TextSteps.{letters_text};
ghost use Rattle.pdf.specs.Texts.{has_letters, has_text, letter_count, line_letters};
ghost use Rattle.pdf.specs.declared.counts.TheConstants.{MOST_LETTERS};
ghost use Rattle.stroke_runs.specs.Shown.{is_shown};

use crate::content::PageContent;
use crate::letters::{put_end, put_letter, row_of};
use crate::matrices::put_matrix;
use crate::sheet::Sheet;
use devices::Sink;
use labels::{Label, Line};
use pieces::Text;
use stroke_runs::is_shown;

// Puts the texts of the labels of a sheet that are shown, if there is one.
pub(crate) fn put_texts<K: Sink>(
    document: &mut Text<'_, K>,
    content: &mut PageContent<'_>,
    sheet: &Sheet<'_>,
)
    requires open { IsOpen K.state document.old content.old }
    requires letters { letter_count sheet.now.labels.now ≤ MOST_LETTERS }
    ensures fills { Fills K.state document.old document.new content.old content.new (operators_text (texts_operators sheet.now.pens.now
        sheet.now.strokes.now (all_counted sheet.now.from (all_counted sheet.now.earlier sheet.now.labels.now)))) }
{
    if !has_texts(sheet) {
        return;
    }
    content.put(document, b"BT\n3 Tr\n");
    put_labels(document, content, sheet);
    content.put(document, b"ET\n");
}

// Whether a label is shown that has a letter.
fn has_texts(sheet: &Sheet<'_>) -> bool
    ensures { result ≡ list_any (has_text sheet.now.pens.now sheet.now.strokes.now)
        (all_counted sheet.now.from (all_counted sheet.now.earlier sheet.now.labels.now)) }
{
    for label in sheet.labels {
        if has_text(sheet, label) {
            return true;
        }
    }
    false
}

// Whether a label is shown, and has a letter.
fn has_text(sheet: &Sheet<'_>, label: &Label) -> bool
    ensures { result ≡ has_text sheet.now.pens.now sheet.now.strokes.now
        (counted sheet.now.from (counted sheet.now.earlier label.now)) }
{
    is_on(sheet, label) && have_letters(&label.lines)
}

// Whether a label is shown on a sheet.
fn is_on(sheet: &Sheet<'_>, label: &Label) -> bool
    ensures { result ≡ is_shown sheet.now.pens.now sheet.now.strokes.now
        (counted sheet.now.from (counted sheet.now.earlier label.now)) }
{
    // once they are read, the prover knows their range
    let _first = label.first;
    let _after = label.after;
    let before = sheet.earlier.saturating_add(sheet.from);
    is_shown(sheet.pens, sheet.strokes, before, label)
}

// Whether one of these lines has a letter.
fn have_letters(lines: &[Line]) -> bool
    ensures { result ≡ list_any has_letters lines.now }
{
    for line in lines {
        if !line.text.is_empty() {
            return true;
        }
    }
    false
}

// Puts the labels that are shown.
fn put_labels<K: Sink>(document: &mut Text<'_, K>, content: &mut PageContent<'_>, sheet: &Sheet<'_>)
    requires open { IsOpen K.state document.old content.old }
    requires letters { letter_count sheet.now.labels.now ≤ MOST_LETTERS }
    ensures fills { Fills K.state document.old document.new content.old content.new (operators_text (labels_operators sheet.now.pens.now
        sheet.now.strokes.now (all_counted sheet.now.from (all_counted sheet.now.earlier sheet.now.labels.now)))) }
{
    for label in sheet.labels {
        put_label(document, content, sheet, label);
    }
}

// Puts the lines of a label, if it is shown.
fn put_label<K: Sink>(
    document: &mut Text<'_, K>,
    content: &mut PageContent<'_>,
    sheet: &Sheet<'_>,
    label: &Label,
)
    requires open { IsOpen K.state document.old content.old }
    requires letters { line_letters label.now.lines ≤ MOST_LETTERS }
    ensures fills { Fills K.state document.old document.new content.old content.new (operators_text (labels_operators sheet.now.pens.now
        sheet.now.strokes.now (counted sheet.now.from (counted sheet.now.earlier label.now) ∷ []))) }
{
    if !is_on(sheet, label) {
        return;
    }
    put_lines(document, content, &label.lines);
}

// Puts lines.
fn put_lines<K: Sink>(document: &mut Text<'_, K>, content: &mut PageContent<'_>, lines: &[Line])
    requires open { IsOpen K.state document.old content.old }
    requires letters { line_letters lines.now ≤ MOST_LETTERS }
    ensures fills { Fills K.state document.old document.new content.old content.new (operators_text (lines_operators lines.now)) }
{
    for line in lines {
        put_line(document, content, line);
    }
}

// Puts a line, if it has a letter.
fn put_line<K: Sink>(document: &mut Text<'_, K>, content: &mut PageContent<'_>, line: &Line)
    requires open { IsOpen K.state document.old content.old }
    requires letters { length line.now.text ≤ MOST_LETTERS }
    ensures fills { Fills K.state document.old document.new content.old content.new (operators_text (text_operators line.now)) }
{
    if line.text.is_empty() {
        return;
    }
    put_matrix(document, content, line);
    put_letters(document, content, &line.text);
}

// Puts letters.
fn put_letters<K: Sink>(document: &mut Text<'_, K>, content: &mut PageContent<'_>, text: &[u32])
    requires open { IsOpen K.state document.old content.old }
    ensures fills { Fills K.state document.old document.new content.old content.new (letters_text None text.now) }
{
    let mut row = None;
    for point in text {
        put_letter(document, content, row, *point);
        row = Some(row_of(*point));
    }
    put_end(document, content, row);
}
