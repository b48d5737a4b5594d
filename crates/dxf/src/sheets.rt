//! The sheets of a document.
ghost use Rattle.std.specs.Prelude.{◌≡◌, ◌≤◌, ◌+◌, length, Some};
ghost use Rattle.areas.specs.Views.{areas_in};
ghost use Rattle.labels.specs.Sheets.{all_counted};
ghost use Rattle.pieces.specs.Texts.{IsSound, Puts};
ghost use Rattle.plot_page.specs.declared.stroke.TheConstants.{MOST_STROKES};
ghost use Rattle.stroke_runs.specs.Sheets.{sheet_areas};
ghost use Rattle.svg.specs.Sheets.{labelled_sheets};
ghost use Rattle.dxf.specs.Documents.{sheet_text, sheets_text};

use crate::layers::{Layers, put_layers};
use crate::parts::put_parts;
use devices::Sink;
use pieces::Text;
use stroke_runs::{SheetView, between, count_to, end_of};

/// What is put of each sheet.
#[derive(Clone, Copy)]
pub(crate) enum Section {
    /// The entries of its layers.
    Layers,
    /// Its entities.
    Entities,
}

// Puts the layers of all sheets, or their entities.
pub(crate) fn put_sheets<K: Sink>(
    text: &mut Text<'_, K>,
    section: Section,
    view: &SheetView<'_>,
    ends: &[usize],
)
    requires sound { IsSound K.state text.old }
    requires strokes { length view.now.strokes.now ≤ MOST_STROKES }
    ensures puts { Puts K.state text.old text.new (sheets_text section view.now.pens.now 0
        (labelled_sheets view.now.strokes.now (areas_in view.now.areas) ends.now
        (all_counted view.now.before view.now.labels.now))) }
{
    let mut rest = view.labels;
    let mut at = 0;
    let mut number = 0;
    for ended in 0..ends.len() + 1 {
        let end = end_of(view.strokes, ends, ended);
        let sheet = between(view.strokes, at, end);
        if !sheet.is_empty() {
            let (here, later) = rest.split_at(count_to(rest, view.before, end));
            let shown = SheetView {
                strokes: sheet,
                labels: here,
                ..*view
            };
            number += 1;
            put_sheet(text, section, &shown, number, at);
            at = end;
            rest = later;
        }
    }
}

// Puts the layers of a sheet of this number, or its entities, before whose strokes there are `at` others.
fn put_sheet<K: Sink>(
    text: &mut Text<'_, K>,
    section: Section,
    view: &SheetView<'_>,
    number: u32,
    at: usize,
)
    requires sound { IsSound K.state text.old }
    requires few { at + length view.now.strokes.now ≤ MOST_STROKES }
    ensures puts { Puts K.state text.old text.new (sheet_text section view.now.pens.now number (record {
      strokes = view.now.strokes.now;
      areas = sheet_areas at (areas_in view.now.areas);
      labels = all_counted at (all_counted view.now.before view.now.labels.now);
    })) }
{
    let layers = Layers::of(Some(number), view.pens, view.strokes);
    match section {
        Section::Layers => put_layers(text, &layers),
        Section::Entities => put_parts(text, &layers, view, at),
    }
}
