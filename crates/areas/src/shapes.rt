//! Strokes, and which of them are the edges of areas.
ghost use Rattle.std.specs.Prelude.{◌≡◌, []};
ghost use Rattle.areas.specs.Shapes.{edges_of, plain, stroke_count};
ghost use Rattle.areas.specs.Views.{areas_in, shapes_in};

use crate::among::Areas;
use crate::area::Area;
use plot_page::Stroke;

/// Strokes, and the areas among them.
#[derive(Clone, Copy)]
pub struct Shapes<'a> {
    pub strokes: &'a [Stroke],
    pub areas: Areas<'a>,
}

impl<'a> Shapes<'a> {
    /// Strokes of which none is the edge of an area.
    pub fn of_strokes(strokes: &'a [Stroke]) -> Shapes<'a>
        ensures shapes { shapes_in result ≡ plain strokes.entry.now }
        ensures strokes { result.strokes.now ≡ strokes.entry.now }
        ensures areas { areas_in result.areas ≡ [] }
    {
        Shapes {
            strokes,
            areas: Areas::none(),
        }
    }

    /// How many of the strokes are no edges.
    pub fn stroke_count(&self) -> usize
        ensures { result ≡ stroke_count (shapes_in self.now) }
    {
        self.strokes.len().saturating_sub(self.areas.edge_count())
    }

    /// The edges of an area.
    pub fn edges(&self, area: Area) -> &'a [Stroke]
        ensures { result.now ≡ edges_of self.now.strokes.now area }
    {
        let strokes = self.strokes;
        let kept = &strokes[..area.end.min(strokes.len())];
        &kept[area.first.min(kept.len())..]
    }
}
