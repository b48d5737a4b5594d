//! The strokes and areas of a document that are written together.
ghost use Rattle.std.specs.Prelude.{◌≡◌, ◌+◌, ◌≤◌, ◌<◌, length};
ghost use Rattle.std.specs.List.{list_all};
ghost use Rattle.areas.specs.Views.{areas_in};
ghost use Rattle.pieces.specs.Texts.{IsSound, Puts};
ghost use Rattle.plot_page.specs.declared.stroke.TheConstants.{MOST_STROKES};
ghost use Rattle.stroke_runs.specs.Sheets.{shapes_between, sheet_areas};
ghost use Rattle.dxf.specs.Chains.{edge_marks};
ghost use Rattle.dxf.specs.Cuts.{is_whole};
ghost use Rattle.dxf.specs.Entities.{shapes_text};
ghost use Rattle.areas.specs.Shapes.{beginning_at};
ghost use Rattle.stroke_runs.specs.Drawn.{begins_drawn};
ghost use Rattle.dxf.specs.Steps.{after_area, after_first, after_stroke, area_text, first_text, left_text, shape_after, shape_text, stroke_text};

use crate::chains::{Pending, piece_of};
use crate::cuts::is_whole;
use crate::entities::{put_end, put_next};
use crate::layers::Layers;
use devices::Sink;
use pieces::Text;
use plot_page::{PenSet, Stroke};
use stroke_runs::{LEAST_WIDTH, SheetView, between, is_drawn};

/// How far strokes are written: the chain that may go on, and after how many strokes the next shape begins.
#[derive(Clone, Copy)]
pub(crate) struct Walk {
    pub(crate) pending: Pending,
    pub(crate) done: usize,
}

// Puts the strokes and areas after the first `at` strokes, up to and including number `end`, of a sheet after `before` others.
pub(crate) fn put_strokes<K: Sink>(
    text: &mut Text<'_, K>,
    layers: &Layers,
    view: &SheetView<'_>,
    before: usize,
    at: usize,
    end: usize,
)
    requires sound { IsSound K.state text.old }
    requires few { before + length view.now.strokes.now ≤ MOST_STROKES }
    ensures puts { Puts K.state text.old text.new (shapes_text layers.now view.now.pens.now
        (shapes_between view.now.strokes.now (sheet_areas before (areas_in view.now.areas)) at end)) }
{
    let strokes = between(view.strokes, 0, end);
    let mut walk = Walk {
        pending: Pending::Nothing,
        done: at,
    };
    for i in at..strokes.len() {
        if walk.done <= i {
            let rest = between(strokes, i, strokes.len());
            walk = put_shape(text, layers, view, before, i, walk.pending, rest);
        }
    }
    put_end(text, layers, walk.pending);
}

// Puts the shape that begins with the first of these strokes, before which there are `i` others of a sheet after `before`
// others.
fn put_shape<K: Sink>(
    text: &mut Text<'_, K>,
    layers: &Layers,
    view: &SheetView<'_>,
    before: usize,
    i: usize,
    pending: Pending,
    rest: &[Stroke],
) -> Walk
    requires sound { IsSound K.state text.old }
    requires few { before + i < MOST_STROKES }
    ensures puts { Puts K.state text.old text.new (shape_text layers.now view.now.pens.now before i pending rest.now
        (beginning_at (before + i) (areas_in view.now.areas))) }
    ensures after { result ≡ shape_after view.now.pens.now before i pending rest.now
        (beginning_at (before + i) (areas_in view.now.areas)) }
{
    match view.areas.beginning_at(before + i) {
        Some(area) => {
            let done = area.end.saturating_sub(before);
            let edges = between(rest, 0, done.saturating_sub(i));
            Walk {
                pending: put_area(text, layers, view.pens, pending, edges),
                done,
            }
        }
        None => Walk {
            pending: put_first(text, layers, view.pens, pending, rest),
            done: i + 1,
        },
    }
}

// Puts the first of these strokes, which is no edge, and returns the chain that may go on after it.
fn put_first<K: Sink>(
    text: &mut Text<'_, K>,
    layers: &Layers,
    pens: &PenSet,
    pending: Pending,
    rest: &[Stroke],
) -> Pending
    requires sound { IsSound K.state text.old }
    ensures puts { Puts K.state text.old text.new (first_text layers.now pens.now pending rest.now) }
    ensures after { result ≡ after_first pens.now pending rest.now }
{
    match rest {
        [stroke, ..] => put_stroke(text, layers, pens, pending, stroke),
        [] => pending,
    }
}

// Puts a stroke that is no edge, if it is drawn, and returns the chain that may go on after it.
fn put_stroke<K: Sink>(
    text: &mut Text<'_, K>,
    layers: &Layers,
    pens: &PenSet,
    pending: Pending,
    stroke: &Stroke,
) -> Pending
    requires sound { IsSound K.state text.old }
    ensures puts { Puts K.state text.old text.new (stroke_text layers.now pens.now pending stroke.now) }
    ensures after { result ≡ after_stroke pens.now pending stroke.now }
{
    if is_drawn(pens, stroke) {
        put_next(text, layers, pending, piece_of(stroke.width, false, stroke))
    } else {
        pending
    }
}

// Puts the edges of an area, if it is drawn, and returns the chain that may go on after it.
fn put_area<K: Sink>(
    text: &mut Text<'_, K>,
    layers: &Layers,
    pens: &PenSet,
    pending: Pending,
    edges: &[Stroke],
) -> Pending
    requires sound { IsSound K.state text.old }
    ensures puts { Puts K.state text.old text.new (area_text layers.now pens.now pending edges.now) }
    ensures after { result ≡ after_area pens.now pending edges.now }
{
    if begins_drawn(pens, edges) {
        put_end(text, layers, pending);
        put_edges(text, layers, are_whole(edges), edges);
        Pending::Nothing
    } else {
        pending
    }
}

// Whether the first of these strokes is drawn.
fn begins_drawn(pens: &PenSet, strokes: &[Stroke]) -> bool
    ensures { result ≡ begins_drawn pens.now strokes.now }
{
    match strokes {
        [first, ..] => is_drawn(pens, first),
        [] => false,
    }
}

// Whether no window cuts one of these strokes.
fn are_whole(strokes: &[Stroke]) -> bool
    ensures { result ≡ list_all is_whole strokes.now }
{
    for stroke in strokes {
        if !is_whole(stroke) {
            return false;
        }
    }
    true
}

// Puts the edges of an area.
fn put_edges<K: Sink>(text: &mut Text<'_, K>, layers: &Layers, closed: bool, edges: &[Stroke])
    requires sound { IsSound K.state text.old }
    ensures puts { Puts K.state text.old text.new (left_text layers.now Pending.Nothing (edge_marks closed edges.now)) }
{
    let mut pending = Pending::Nothing;
    for edge in edges {
        pending = put_next(text, layers, pending, piece_of(LEAST_WIDTH, closed, edge));
    }
    put_end(text, layers, pending);
}
