//! Laws of runs.
ghost use Rattle.std.specs.Prelude.{◌≡◌, ◌+◌, [], flat_map, map};
ghost use Rattle.std.specs.List.{All};
ghost use Rattle.areas.specs.Shapes.{shapes};
ghost use Rattle.areas.specs.Views.{areas_in};
ghost use Rattle.stroke_runs.specs.Drawn.{drawn, drawn_shapes};
ghost use Rattle.stroke_runs.specs.Laws.{AreGreatest, AreRuns, IsShapeRun, joined, split};
ghost use Rattle.stroke_runs.specs.Ranges.{IsInRange};
ghost use Rattle.stroke_runs.specs.Roles.{members_from, members_of, roles_at};
ghost use Rattle.stroke_runs.specs.Runs.{runs, shape_runs, stroke_run};
ghost use Rattle.stroke_runs.specs.Sheets.{between, shapes_between, sheet_areas, sheets_of};

use areas::Areas;
use plot_page::{PenSet, Stroke};

/// The runs, one after another, are the strokes that are drawn, in their order, each once.
pub fn runs_are_all(pens: &PenSet, strokes: &[Stroke])
    ensures { joined (runs pens.now strokes.now) ≡ drawn pens.now strokes.now }
{}

/// A run has 1 to 1,000 strokes, which are drawn in one way.
pub fn runs_are_alike(pens: &PenSet, strokes: &[Stroke])
    ensures { AreRuns (runs pens.now strokes.now) }
{}

/// A run ends where the next stroke is drawn in another way, or after 1,000 strokes.
pub fn runs_are_greatest(pens: &PenSet, strokes: &[Stroke])
    ensures { AreGreatest (runs pens.now strokes.now) }
{}

/// The runs of shapes, one after another, are the shapes that are drawn, in their order, each once: a run is an area, or the
/// strokes that it has.
pub fn shape_runs_are_all(pens: &PenSet, strokes: &[Stroke], areas: Areas<'_>)
    ensures { flat_map split (shape_runs pens.now (shapes strokes.now (areas_in areas.entry)))
        ≡ drawn_shapes pens.now (shapes strokes.now (areas_in areas.entry)) }
{}

/// A run of shapes is an area, or 1 to 1,000 strokes, which are drawn in one way.
pub fn shape_runs_are_alike(pens: &PenSet, strokes: &[Stroke], areas: Areas<'_>)
    ensures { All IsShapeRun (shape_runs pens.now (shapes strokes.now (areas_in areas.entry))) }
{}

/// Without areas the runs of shapes are those of strokes.
pub fn runs_without_areas(pens: &PenSet, strokes: &[Stroke])
    ensures { shape_runs pens.now (shapes strokes.now []) ≡ map stroke_run (runs pens.now strokes.now) }
{}

/// The strokes that are drawn of a sheet that comes after `before` others, after its first `at` and up to its number `end`, are
/// those of its shapes that are drawn, also if they are taken one at a time.
pub fn members_are_of_shapes(
    pens: &PenSet,
    strokes: &[Stroke],
    areas: Areas<'_>,
    before: usize,
    at: usize,
    end: usize,
)
    ensures { members_from pens.now (roles_at areas.entry (before + at)) (between strokes.now at end)
        ≡ members_of (drawn_shapes pens.now (shapes_between strokes.now (sheet_areas before (areas_in areas.entry)) at end)) }
{}

/// The sheets, one after another, are all strokes, in their order, each once.
pub fn sheets_are_all(strokes: &[Stroke], ends: &[usize])
    ensures { joined (sheets_of strokes.now ends.now) ≡ strokes.now }
{}

/// The numbers of strokes are in their ranges: laws of texts need it, since each number is to be read back.
pub fn strokes_are_in_range(strokes: &[Stroke])
    ensures { All IsInRange strokes.now }
{
    for stroke in strokes {
        is_in_range(stroke);
    }
}

fn is_in_range(stroke: &Stroke)
    ensures { IsInRange stroke.now }
{
    let _pen = stroke.pen;
    let _red = stroke.colour.red;
    let _green = stroke.colour.green;
    let _blue = stroke.colour.blue;
}
