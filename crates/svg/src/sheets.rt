//! The sheets of a document.
ghost use Rattle.std.specs.Prelude.{◌≤◌, length};
ghost use Rattle.areas.specs.Views.{areas_in};
ghost use Rattle.labels.specs.Sheets.{all_counted};
ghost use Rattle.pieces.specs.Texts.{IsSound, Puts};
ghost use Rattle.plot_page.specs.declared.stroke.TheConstants.{MOST_STROKES};
ghost use Rattle.svg.specs.Documents.{open_text, sheets_text};
ghost use Rattle.svg.specs.Sheets.{labelled_sheets};

use crate::parts::put_parts;
use devices::Sink;
use pieces::Text;
use stroke_runs::{SheetView, between, count_to, end_of};

// Puts the start of the group of a sheet.
pub(crate) fn put_open<K: Sink>(text: &mut Text<'_, K>, number: u64)
    requires sound { IsSound K.state text.old }
    ensures puts { Puts K.state text.old text.new (open_text number) }
{
    text.put(b"<g id=\"sheet-");
    text.put_number(number);
    text.put(b"\">\n");
}

// Puts all sheets, with their labels.
pub(crate) fn put_sheets<K: Sink>(text: &mut Text<'_, K>, view: &SheetView<'_>, ends: &[usize])
    requires sound { IsSound K.state text.old }
    requires strokes { length view.now.strokes.now ≤ MOST_STROKES }
    ensures puts { Puts K.state text.old text.new (sheets_text view.now.page.now view.now.pens.now 0
        (labelled_sheets view.now.strokes.now (areas_in view.now.areas) ends.now
        (all_counted view.now.before view.now.labels.now))) }
{
    let mut rest = view.labels;
    let mut at = 0;
    let mut number = 0;
    for ended in 0..ends.len() + 1 {
        let end = end_of(view.strokes, ends, ended);
        let sheet = between(view.strokes, at, end);
        if !sheet.is_empty() {
            let (here, later) = rest.split_at(count_to(rest, view.before, end));
            let shown = SheetView {
                strokes: sheet,
                labels: here,
                ..*view
            };
            number += 1;
            put_open(text, number);
            put_parts(text, &shown, at);
            text.put(b"</g>\n");
            at = end;
            rest = later;
        }
    }
}
