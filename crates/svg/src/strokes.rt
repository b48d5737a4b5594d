//! The strokes of a document that are written together, as paths.
ghost use Rattle.std.specs.Prelude.{◌+◌, ◌≤◌, length};
ghost use Rattle.areas.specs.Views.{areas_in};
ghost use Rattle.pieces.specs.Texts.{IsSound, Puts};
ghost use Rattle.plot_page.specs.declared.stroke.TheConstants.{MOST_STROKES};
ghost use Rattle.stroke_runs.specs.Links.{at_start};
ghost use Rattle.stroke_runs.specs.Sheets.{shapes_between, sheet_areas};
ghost use Rattle.svg.specs.Paths.{paths_text};
ghost use Rattle.svg.specs.Steps.{steps_text};

use crate::steps::{put_end, put_step};
use devices::Sink;
use pieces::Text;
use plot_page::{Page, PenSet, Stroke};
use stroke_runs::{Roles, Runs, SheetView, between};

// Puts the paths of the strokes after the first `at`, up to and including number `end`, of a sheet after `before` others.
pub(crate) fn put_strokes<K: Sink>(
    text: &mut Text<'_, K>,
    view: &SheetView<'_>,
    before: usize,
    at: usize,
    end: usize,
)
    requires sound { IsSound K.state text.old }
    requires few { before + length view.now.strokes.now ≤ MOST_STROKES }
    ensures puts { Puts K.state text.old text.new (paths_text view.now.page.now view.now.pens.now
        (shapes_between view.now.strokes.now (sheet_areas before (areas_in view.now.areas)) at end)) }
{
    let strokes = between(view.strokes, at, end);
    if strokes.is_empty() {
        return;
    }
    let roles = Roles::new(view.areas, before + at);
    put_each(text, view.page, view.pens, roles, strokes);
}

// Puts the paths of strokes, by what each of them is.
fn put_each<K: Sink>(
    text: &mut Text<'_, K>,
    page: &Page,
    pens: &PenSet,
    roles: Roles<'_>,
    strokes: &[Stroke],
)
    requires sound { IsSound K.state text.old }
    requires few { roles.before + length strokes.now ≤ MOST_STROKES }
    ensures puts { Puts K.state text.old text.new (steps_text page.now pens.now roles.entry at_start strokes.now) }
{
    let mut roles = roles;
    let mut runs = Runs::new();
    for stroke in strokes {
        put_step(text, page, pens, &mut roles, &mut runs, stroke);
    }
    put_end(text, &runs);
}
