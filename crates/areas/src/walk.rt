//! A walk over shapes, from one to the next.
ghost use Rattle.std.specs.Prelude.{◌≡◌, ◌+◌, ◌<◌, ◌∷◌, IfNone, IfSome, length};
ghost use Rattle.std.specs.List.{All};
ghost use Rattle.areas.specs.Shapes.{AreApart, shapes};
ghost use Rattle.areas.specs.Unique.{AreApart-prop};
ghost use Rattle.areas.specs.Views.{areas_in};

use crate::among::Areas;
use crate::area::Area;
use crate::shapes::Shapes;
use plot_page::Stroke;
use polygons::Rule;

/// A shape of a list.
#[derive(Clone, Copy)]
pub enum NextShape<'a> {
    /// A stroke that is no edge.
    Stroke(&'a Stroke),
    /// An area: its edges, and which places between them are inside.
    Area(&'a [Stroke], Rule),
}

/// Comes to the shapes of a list, one after another.
#[derive(Clone, Copy)]
pub struct ShapeWalk<'a> {
    strokes: &'a [Stroke],
    // The areas that are left, by all strokes, and how many strokes have been passed.
    areas: Areas<'a>,
    at: usize,
    ghost apart: { AreApart at (areas_in areas) } by { AreApart-prop at (areas_in areas) },
}

impl<'a> ShapeWalk<'a> {
    ghost use Rattle.areas.specs.Walks.{HasNoStrokes, IsNext, shapes_left};

    /// At the first of these shapes.
    pub fn new(of: Shapes<'a>) -> ShapeWalk<'a>
        ensures { shapes_left result ≡ shapes of.entry.strokes.now (areas_in of.entry.areas) }
    {
        ShapeWalk {
            strokes: of.strokes,
            areas: of.areas,
            at: 0,
        }
    }

    /// The next shape, or `None` after the last stroke.
    #[inline(always)]
    pub fn next(&mut self) -> Option<NextShape<'a>>
        ensures some { IfSome result (λ shape. IsNext shape (shapes_left self.old) (shapes_left self.new)) }
        ensures none { IfNone result (All HasNoStrokes (shapes_left self.old)) }
    {
        if self.at >= self.strokes.len() {
            return None;
        }
        match self.begun() {
            Some((area, rest)) => Some(self.pass_area(area, rest)),
            None => Some(self.pass_stroke()),
        }
    }

    // The area that begins with the next stroke, and those after it.
    #[inline(always)]
    fn begun(&self) -> Option<(Area, Areas<'a>)>
        ensures some { IfSome result (λ it. areas_in self.now.areas ≡ it.0 ∷ areas_in it.1) }
        ensures here { IfSome result (λ it. it.0.first ≡ self.now.at) }
        ensures none { IfNone result (AreApart (self.now.at + 1) (areas_in self.now.areas)) }
    {
        let (area, rest) = self.areas.split_first()?;
        if area.first == self.at {
            Some((area, rest))
        } else {
            None
        }
    }

    // Passes an area, after which these are left.
    #[inline(never)]
    fn pass_area(&mut self, area: Area, rest: Areas<'a>) -> NextShape<'a>
        requires first { areas_in self.old.areas ≡ area ∷ areas_in rest }
        requires here { area.first ≡ self.old.at }
        ensures { IsNext result (shapes_left self.old) (shapes_left self.new) }
    {
        let strokes = self.strokes;
        let of = Shapes {
            strokes,
            areas: rest,
        };
        *self = ShapeWalk {
            strokes,
            areas: rest,
            at: area.end,
        };
        NextShape::Area(of.edges(area), area.rule)
    }

    // Passes a stroke, with which no area begins.
    #[inline(always)]
    fn pass_stroke(&mut self) -> NextShape<'a>
        requires within { self.old.at < length self.old.strokes.now }
        requires apart { AreApart (self.old.at + 1) (areas_in self.old.areas) }
        ensures { IsNext result (shapes_left self.old) (shapes_left self.new) }
    {
        let at = self.at;
        let strokes = self.strokes;
        *self = ShapeWalk {
            strokes,
            areas: self.areas,
            at: at + 1,
        };
        NextShape::Stroke(&strokes[at])
    }
}
