//! The parts of a sheet: strokes and areas, and labels.
ghost use Rattle.std.specs.Prelude.{◌≡◌, ◌-◌, ◌+◌, ◌≤◌, length};
ghost use Rattle.areas.specs.Views.{areas_in};
ghost use Rattle.labels.specs.Sheets.{all_counted};
ghost use Rattle.pieces.specs.Texts.{IsSound, Puts};
ghost use Rattle.plot_page.specs.declared.stroke.TheConstants.{MOST_STROKES};
ghost use Rattle.stroke_runs.specs.Drawn.{drawn};
ghost use Rattle.stroke_runs.specs.Sheets.{between, sheet_areas};
ghost use Rattle.dxf.specs.Parts.{first_of, label_by, parts_text};

use crate::layers::Layers;
use crate::letters::{is_written, put_lines};
use crate::strokes::put_strokes;
use devices::Sink;
use labels::Label;
use pieces::Text;
use plot_page::{PenSet, Stroke};
use stroke_runs::{SheetView, between, is_drawn};

// Puts the entities of a sheet, before whose strokes there are `at` others.
pub(crate) fn put_parts<K: Sink>(
    text: &mut Text<'_, K>,
    layers: &Layers,
    view: &SheetView<'_>,
    at: usize,
)
    requires sound { IsSound K.state text.old }
    requires few { at + length view.now.strokes.now ≤ MOST_STROKES }
    ensures puts { Puts K.state text.old text.new
        (parts_text layers.now view.now.pens.now view.now.strokes.now (sheet_areas at (areas_in view.now.areas))
        (all_counted at (all_counted view.now.before view.now.labels.now))) }
{
    let mut end = 0;
    for label in view.labels {
        let first = counted(label.first, view.before, at).max(end);
        let after = counted(label.after, view.before, at).max(first);
        put_strokes(text, layers, view, at, end, first);
        put_label(text, layers, view, at, first, after, label);
        end = after;
    }
    put_strokes(text, layers, view, at, end, view.strokes.len());
}

// A count of strokes, without those that come before.
fn counted(count: usize, before: usize, at: usize) -> usize
    ensures { result ≡ count - before - at }
{
    count.saturating_sub(before).saturating_sub(at)
}

// Puts a label, whose strokes are those after the first `first`, up to number `after`, if one of them is drawn.
fn put_label<K: Sink>(
    text: &mut Text<'_, K>,
    layers: &Layers,
    view: &SheetView<'_>,
    at: usize,
    first: usize,
    after: usize,
    label: &Label,
)
    requires sound { IsSound K.state text.old }
    requires few { at + length view.now.strokes.now ≤ MOST_STROKES }
    ensures puts { Puts K.state text.old text.new
        (label_by layers.now view.now.pens.now view.now.strokes.now (sheet_areas at (areas_in view.now.areas))
        (record label.now { first = first; after = after })
        (first_of (drawn view.now.pens.now (between view.now.strokes.now first after)))) }
{
    let Some(stroke) = first_drawn(view.pens, between(view.strokes, first, after)) else {
        return;
    };
    if is_written(&label.lines) {
        put_lines(text, layers, &stroke, &label.lines);
    } else {
        put_strokes(text, layers, view, at, first, after);
    }
}

// The first of these strokes that is drawn.
fn first_drawn(pens: &PenSet, strokes: &[Stroke]) -> Option<Stroke>
    ensures { result ≡ first_of (drawn pens.now strokes.now) }
{
    for stroke in strokes {
        if is_drawn(pens, stroke) {
            return Some(*stroke);
        }
    }
    None
}
