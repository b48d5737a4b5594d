//! Which rows of code points are shown.
ghost use Rattle.std.specs.Prelude.{◌≡◌, ℕ, ◌<◌, ◌≤◌, ◌==◌, ◌||◌, take, filter};
ghost use Rattle.std.specs.List.{list_any, range_with_len};
ghost use Rattle.labels.specs.Sheets.{all_counted, counted};
ghost use Rattle.pdf.specs.Documents.{rows_shown};
ghost use Rattle.pdf.specs.Texts.{has_row, is_marked, row_of, shows_row};

use crate::letters::row_of;
use crate::pens::append_if;
use labels::{Label, Line};
use plot_page::{PenSet, Stroke};
use stroke_runs::{SheetView, is_shown};

/// How many rows there are.
pub(crate) const ROWS: usize = 256;

// Lists the rows of labels that are shown, by their numbers, and returns how many they are.
pub(crate) fn list_rows(view: &SheetView<'_>, list: &mut [u8; ROWS]) -> usize
    ensures list { take result list.new
        ≡ rows_shown view.now.pens.now view.now.strokes.now (all_counted view.now.before view.now.labels.now) }
    ensures few { result ≤ ROWS }
{
    let mut marked = [false; ROWS];
    mark_labels(
        &mut marked,
        view.pens,
        view.strokes,
        view.labels,
        view.before,
    );
    list_marked(&marked, list)
}

// Lists the rows that are marked, by their numbers, and returns how many they are.
fn list_marked(marked: &[bool; ROWS], list: &mut [u8; ROWS]) -> usize
    ensures list { take result list.new ≡ filter (is_marked marked.now) (range_with_len 0 256) }
    ensures few { result ≤ ROWS }
{
    let mut count = 0;
    for row in 0..ROWS {
        count = append_if(list, count, marked[row], row as u8);
    }
    count
}

// Marks the rows of labels that are shown.
fn mark_labels(
    marked: &mut [bool; ROWS],
    pens: &PenSet,
    strokes: &[Stroke],
    labels: &[Label],
    before: usize,
)
    ensures { (row : ℕ) → row < 256 → is_marked marked.new row
        ≡ (is_marked marked.old row || list_any (shows_row pens.now strokes.now row) (all_counted before labels.now)) }
{
    for label in labels {
        mark_label(marked, pens, strokes, label, before);
    }
}

// Marks the rows of a label, if it is shown.
fn mark_label(
    marked: &mut [bool; ROWS],
    pens: &PenSet,
    strokes: &[Stroke],
    label: &Label,
    before: usize,
)
    ensures { (row : ℕ) → row < 256 → is_marked marked.new row
        ≡ (is_marked marked.old row || shows_row pens.now strokes.now row (counted before label.now)) }
{
    if is_shown(pens, strokes, before, label) {
        mark_lines(marked, &label.lines);
    }
}

// Marks the rows of lines.
fn mark_lines(marked: &mut [bool; ROWS], lines: &[Line])
    ensures { (row : ℕ) → row < 256
        → is_marked marked.new row ≡ (is_marked marked.old row || list_any (has_row row) lines.now) }
{
    for line in lines {
        mark_letters(marked, &line.text);
    }
}

// Marks the rows of letters.
fn mark_letters(marked: &mut [bool; ROWS], text: &[u32])
    ensures { (row : ℕ) → row < 256 → is_marked marked.new row
        ≡ (is_marked marked.old row || list_any (λ point. row == row_of point) text.now) }
{
    for point in text {
        mark(marked, row_of(*point));
    }
}

// Marks a row.
fn mark(marked: &mut [bool; ROWS], row: u8)
    ensures { (other : ℕ) → other < 256
        → is_marked marked.new other ≡ (is_marked marked.old other || (other == row)) }
{
    marked[row as usize] = true;
}
