//! The parts of a sheet: paths, and groups of the strokes of labels.
ghost use Rattle.std.specs.Prelude.{◌≡◌, ◌-◌, ◌+◌, ◌≤◌, [], ◌∷◌, flat_map, length, if◌then◌else◌};
ghost use Rattle.std.specs.List.{list_any};
ghost use Rattle.areas.specs.Views.{areas_in};
ghost use Rattle.labels.specs.Sheets.{all_counted};
ghost use Rattle.pieces.specs.Texts.{IsSound, Puts};
ghost use Rattle.plot_page.specs.declared.stroke.TheConstants.{MOST_STROKES};
ghost use Rattle.stroke_runs.specs.Drawn.{is_drawn};
ghost use Rattle.stroke_runs.specs.Sheets.{between, shapes_between, sheet_areas};
ghost use Rattle.svg.specs.Parts.{Group, part_text, parts_text};
ghost use Rattle.svg.specs.Paths.{paths};
ghost use Rattle.svg.specs.Titles.{label_text};

use crate::strokes::put_strokes;
use crate::titles::put_title;
use devices::Sink;
use labels::Label;
use pieces::Text;
use stroke_runs::{SheetView, between, has_drawn};

// Puts the strokes of a sheet with their labels, before whose strokes there are `at` others.
pub(crate) fn put_parts<K: Sink>(text: &mut Text<'_, K>, view: &SheetView<'_>, at: usize)
    requires sound { IsSound K.state text.old }
    requires few { at + length view.now.strokes.now ≤ MOST_STROKES }
    ensures puts { Puts K.state text.old text.new
        (parts_text view.now.page.now view.now.pens.now view.now.strokes.now (sheet_areas at (areas_in view.now.areas))
        (all_counted at (all_counted view.now.before view.now.labels.now))) }
{
    let mut end = 0;
    for label in view.labels {
        let first = counted(label.first, view.before, at).max(end);
        let after = counted(label.after, view.before, at).max(first);
        put_strokes(text, view, at, end, first);
        put_label(text, view, at, first, after, label);
        end = after;
    }
    put_strokes(text, view, at, end, view.strokes.len());
}

// A count of strokes, without those that come before.
fn counted(count: usize, before: usize, at: usize) -> usize
    ensures { result ≡ count - before - at }
{
    count.saturating_sub(before).saturating_sub(at)
}

// Puts the strokes of a label, which are those after the first `first`, up to number `after`, as a group, if one is drawn.
fn put_label<K: Sink>(
    text: &mut Text<'_, K>,
    view: &SheetView<'_>,
    at: usize,
    first: usize,
    after: usize,
    label: &Label,
)
    requires sound { IsSound K.state text.old }
    requires few { at + length view.now.strokes.now ≤ MOST_STROKES }
    ensures puts { Puts K.state text.old text.new (flat_map part_text
        (if list_any (is_drawn view.now.pens.now) (between view.now.strokes.now first after)
        then Group (label_text label.now) (paths view.now.page.now view.now.pens.now
        (shapes_between view.now.strokes.now (sheet_areas at (areas_in view.now.areas)) first after)) ∷ [] else [])) }
{
    if !has_drawn(view.pens, between(view.strokes, first, after)) {
        return;
    }
    put_group(text, view, at, first, after, label);
}

// Puts the strokes of a label as a group.
fn put_group<K: Sink>(
    text: &mut Text<'_, K>,
    view: &SheetView<'_>,
    at: usize,
    first: usize,
    after: usize,
    label: &Label,
)
    requires sound { IsSound K.state text.old }
    requires few { at + length view.now.strokes.now ≤ MOST_STROKES }
    ensures puts { Puts K.state text.old text.new
        (part_text (Group (label_text label.now) (paths view.now.page.now view.now.pens.now
        (shapes_between view.now.strokes.now (sheet_areas at (areas_in view.now.areas)) first after)))) }
{
    text.put(b"<g>");
    put_title(text, &label.lines);
    put_strokes(text, view, at, first, after);
    text.put(b"</g>\n");
}
