//! What a report says of the strokes and of the areas of each pen.
ghost use Rattle.std.specs.Prelude.{◌≡◌, ◌+◌, ◌-◌, ◌^◌, ◌<◌, ◌≤◌, ◌++◌, ◌∷◌, [], List, length};
ghost use Rattle.plot_page.specs.declared.stroke.TheConstants.{MOST_STROKES};
ghost use Rattle.polygons.specs.declared.lines.Rule.{Rule};
ghost use Rattle.areas.specs.Shapes.{Shape, shapes, stroke_shape};
ghost use Rattle.areas.specs.Views.{areas_in};
ghost use Rattle.plot_report.specs.Summaries.{AreAtMost, AreOf, area_with, pen_summary};

use crate::summary::{NO_STROKES, StrokeSummary};
use areas::Shapes;
use plot_page::Stroke;

/// The pens 0 to 255. No stroke has pen 0.
pub(crate) const PENS: usize = 256;

// What holds of the strokes of a pen that are no edges, how many areas it has, and what holds of their edges.
#[derive(Clone, Copy)]
pub(crate) struct PenSummary {
    pub(crate) strokes: StrokeSummary,
    pub(crate) areas: u32,
    pub(crate) edges: StrokeSummary,
}

// Of no shapes.
const NO_SHAPES: PenSummary = PenSummary {
    strokes: NO_STROKES,
    areas: 0,
    edges: NO_STROKES,
};

impl PenSummary {
    // Of the shapes that this one is of, and a stroke.
    fn with_stroke(self, stroke: &Stroke) -> PenSummary
        requires room { self.strokes.strokes < 2 ^ 32 - 1 }
        ensures { (before : List Shape) → self ≡ pen_summary before →
            result ≡ pen_summary (before ++ (stroke_shape stroke.now ∷ [])) }
    {
        PenSummary {
            strokes: self.strokes.with(stroke),
            ..self
        }
    }

    // Of the shapes that this one is of, and an area with these edges.
    fn with_area(self, edges: &[Stroke]) -> PenSummary
        requires room { self.areas < 2 ^ 32 - 1 }
        requires edges { self.edges.strokes + length edges.now < 2 ^ 32 }
        ensures { (before : List Shape) (rule : Rule) → self ≡ pen_summary before →
            result ≡ pen_summary (before ++ (area_with rule edges.now ∷ [])) }
    {
        PenSummary {
            areas: self.areas + 1,
            edges: self.edges.with_all(edges),
            ..self
        }
    }
}

// How many strokes are no edges, and what holds of the shapes of each pen, by its number.
#[derive(Drop)]
pub(crate) struct Summaries {
    pub(crate) strokes: u32,
    pub(crate) pens: [PenSummary; PENS],
}

impl Summaries {
    // Of no shapes.
    fn none() -> Summaries
        ensures { AreOf result [] }
    {
        Summaries {
            strokes: 0,
            pens: [NO_SHAPES; PENS],
        }
    }

    // Adds a stroke.
    fn add_stroke(&mut self, stroke: &Stroke)
        requires room { AreAtMost self.old MOST_STROKES }
        ensures { (before : List Shape) → AreOf self.old before → AreOf self.new (before ++ (stroke_shape stroke.now ∷ [])) }
    {
        let pen = stroke.pen as usize;
        self.strokes += 1;
        self.pens[pen] = self.pens[pen].with_stroke(stroke);
    }

    // Adds an area with these edges.
    fn add_area(&mut self, edges: &[Stroke])
        requires room { AreAtMost self.old MOST_STROKES }
        requires edges { length edges.now ≤ MOST_STROKES }
        requires some { 0 < length edges.now }
        ensures { (before : List Shape) (rule : Rule) → AreOf self.old before →
            AreOf self.new (before ++ (area_with rule edges.now ∷ [])) }
    {
        let last = &edges[edges.len() - 1];
        let pen = last.pen as usize;
        self.pens[pen] = self.pens[pen].with_area(edges);
    }
}

// What holds of strokes, and of the areas among them: each stroke is one, or the first edge of an area.
pub(crate) fn summarise(of: Shapes<'_>) -> Summaries
    requires few { length of.strokes.now ≤ MOST_STROKES }
    ensures { AreOf result (shapes of.entry.strokes.now (areas_in of.entry.areas)) }
{
    let mut summaries = Summaries::none();
    let mut at = 0;
    'shapes: while at < of.strokes.len() {
        match of.areas.beginning_at(at) {
            Some(area) => {
                summaries.add_area(of.edges(area));
                at = area.end;
            }
            None => {
                summaries.add_stroke(&of.strokes[at]);
                at += 1;
            }
        }
    }
    summaries
}
