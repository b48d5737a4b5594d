//! Whether all that is drawn lies off the page.
ghost use Rattle.std.specs.Prelude.{◌≡◌, IsTrue, false};
ghost use Rattle.areas.specs.Views.{shapes_in};
ghost use Rattle.areas.specs.Walks.{shape_in};
ghost use Rattle.page_fit.specs.Census.{is_beside};
ghost use Rattle.page_fit.specs.Extents.{reach};
ghost use Rattle.page_fit.specs.Shapes.{diagonal, is_off_page, lies_off};

use crate::census::{begins_on, is_beside};
use crate::diagonal::diagonal;
use crate::extent::Extent;
use areas::{NextShape, ShapeWalk, Shapes};
use plot_page::{Page, PenSet, Stroke};

/// Whether all that the selected pens draw lies off the page, or they draw nothing. Of most drawings the first shape decides it.
pub fn is_off_page(shapes: Shapes<'_>, pens: &PenSet, page: &Page) -> bool
    ensures { result ≡ is_off_page pens.now page.now (shapes_in shapes.entry) }
{
    let mut rest = ShapeWalk::new(shapes);
    'shapes: while let Some(shape) = rest.next() {
        if !lies_off(shape, pens, page) {
            return false;
        }
    }
    true
}

// Whether a shape is of no selected pen, or lies off the page.
fn lies_off(shape: NextShape<'_>, pens: &PenSet, page: &Page) -> bool
    ensures { result ≡ lies_off pens.now page.now (shape_in shape.entry).strokes }
{
    match shape {
        NextShape::Stroke(stroke) => !pens.has(stroke.pen) || is_stroke_off(stroke, page),
        NextShape::Area(edges, _) => are_edges_off(edges, pens, page),
    }
}

// Whether a stroke lies off the page.
fn is_stroke_off(stroke: &Stroke, page: &Page) -> bool
    ensures { result ≡ is_beside page.now (reach stroke.now) }
{
    !begins_on(page, stroke) && is_beside(page, Extent::of(stroke))
}

// Whether edges are of no selected pen, or lie off the page with all that is between them.
fn are_edges_off(edges: &[Stroke], pens: &PenSet, page: &Page) -> bool
    ensures { result ≡ lies_off pens.now page.now edges.now }
{
    let [first, more @ ..] = edges else {
        return true;
    };
    !pens.has(first.pen) || is_beside(page, Extent::of(&diagonal(first, more)))
}
