//! How many strokes are drawn, how many of them lie off the page, and how many reach over its edge.
ghost use Rattle.std.specs.Prelude.{◌≡◌, ℕ, ℤ, ◌+◌, ◌-◌, ◌*◌, ◌^◌, ◌<◌, ◌≤◌, ◌||◌, int_lt, pos, ◌+ℤ◌, ◌-ℤ◌, false, IsTrue, count_by, length};
ghost use Rattle.std.specs.Int.{int_max, int_min};
ghost use Rattle.areas.specs.Views.{shapes_in};
ghost use Rattle.areas.specs.Walks.{shape_in};
ghost use Rattle.page_fit.specs.Census.{counted, is_beside, is_on, is_within, lies_on};
ghost use Rattle.page_fit.specs.Extents.{IsNear, reach};
ghost use Rattle.page_fit.specs.Shapes.{counted_all, is_cut, shapes_census};

use crate::diagonal::diagonal;
use crate::extent::{Extent, holds_page};
use areas::{NextShape, ShapeWalk, Shapes};
use plot_page::{Page, PenSet, Stroke};

/// How many strokes the selected pens draw, the edges of areas among them, how many of these lie off the page, and how many reach
/// over its edge.
#[derive(Clone, Copy, Debug, PartialEq, Eq)]
pub struct Census {
    /// How many strokes the selected pens draw.
    pub strokes: usize,
    /// How many of them lie off the page with all of their width, or if they are edges with all of their area.
    pub off_page: usize,
    /// How many others, which no window cuts, have an end off the page.
    pub cut: usize,
}

/// Counts the strokes, and the edges of areas, that the selected pens draw, those of them that lie off the page whatever window hides
/// them, and those others that reach over its edge and that no window cuts. An edge lies off the page only if all of its area does.
pub fn census_of(shapes: Shapes<'_>, pens: PenSet, page: &Page) -> Census
    ensures { result ≡ shapes_census pens page.now (shapes_in shapes.entry) }
{
    let mut census = Census {
        strokes: 0,
        off_page: 0,
        cut: 0,
    };
    let mut rest = ShapeWalk::new(shapes);
    'shapes: while let Some(shape) = rest.next() {
        census = census.with_shape(shape, &pens, page);
    }
    census
}

impl Census {
    // With a shape, if its pen is selected.
    #[inline]
    fn with_shape(self, shape: NextShape<'_>, pens: &PenSet, page: &Page) -> Census
        requires strokes { self.strokes + length (shape_in shape).strokes < 2 ^ 64 }
        requires off_page { self.off_page ≤ self.strokes }
        requires cut { self.cut ≤ self.strokes }
        ensures value { result ≡ counted_all pens.now page.now self (shape_in shape.entry).strokes }
        ensures strokes { result.strokes ≤ self.strokes + length (shape_in shape.entry).strokes }
        ensures off_page { result.off_page ≤ result.strokes }
        ensures cut { result.cut ≤ result.strokes }
    {
        match shape {
            NextShape::Stroke(stroke) => self.with(stroke, pens, page),
            NextShape::Area(edges, _) => self.with_edges(edges, pens, page),
        }
    }

    // With the edges of an area, if their pen is selected.
    fn with_edges(self, edges: &[Stroke], pens: &PenSet, page: &Page) -> Census
        requires strokes { self.strokes + length edges.now < 2 ^ 64 }
        requires off_page { self.off_page ≤ self.strokes }
        requires cut { self.cut ≤ self.strokes }
        ensures value { result ≡ counted_all pens.now page.now self edges.now }
        ensures strokes { result.strokes ≤ self.strokes + length edges.now }
        ensures off_page { result.off_page ≤ result.strokes }
        ensures cut { result.cut ≤ result.strokes }
    {
        let [first, more @ ..] = edges else {
            return self;
        };
        if !pens.has(first.pen) {
            return self;
        }
        let strokes = self.strokes + edges.len();
        if is_beside(page, Extent::of(&diagonal(first, more))) {
            return Census {
                strokes,
                off_page: self.off_page + edges.len(),
                cut: self.cut,
            };
        }
        Census {
            strokes,
            off_page: self.off_page,
            cut: self.cut + cut_among(page, edges),
        }
    }

    // With a stroke, if its pen is selected.
    #[inline]
    fn with(self, stroke: &Stroke, pens: &PenSet, page: &Page) -> Census
        requires strokes { self.strokes < 2 ^ 64 - 1 }
        requires off_page { self.off_page < 2 ^ 64 - 1 }
        requires cut { self.cut < 2 ^ 64 - 1 }
        ensures value { result ≡ counted pens.now page.now self stroke.now }
        ensures strokes { result.strokes ≤ self.strokes + 1 }
        ensures off_page { result.off_page + self.strokes ≤ result.strokes + self.off_page }
        ensures cut { result.cut + self.strokes ≤ result.strokes + self.cut }
    {
        if !pens.has(stroke.pen) {
            return self;
        }
        let lies_on = lies_on(page, stroke);
        let lies_beside = !lies_on && is_beside(page, Extent::of(stroke));
        let is_cut = !lies_on && !lies_beside && holds_page(page, stroke.window);
        Census {
            strokes: self.strokes + 1,
            off_page: self.off_page + usize::from(lies_beside),
            cut: self.cut + usize::from(is_cut),
        }
    }
}

// How many of some strokes are cut at the edge of the page.
fn cut_among(page: &Page, strokes: &[Stroke]) -> usize
    ensures value { result ≡ count_by (is_cut page.now) strokes.now }
    ensures most { result ≤ length strokes.now }
{
    let mut count = 0;
    for stroke in strokes {
        count += usize::from(is_cut(page, stroke));
    }
    count
}

// Whether an end of a stroke lies off the page, and no window cuts it.
fn is_cut(page: &Page, stroke: &Stroke) -> bool
    ensures { result ≡ is_cut page.now stroke.now }
{
    !lies_on(page, stroke) && holds_page(page, stroke.window)
}

// Whether both ends of a stroke lie on the page, as most do. Then the stroke does not lie beside it.
#[inline]
fn lies_on(page: &Page, stroke: &Stroke) -> bool
    ensures value { result ≡ lies_on page.now stroke.now }
    ensures not_beside { IsTrue result → is_beside page.now (reach stroke.now) ≡ false }
{
    begins_on(page, stroke) && is_on(page, stroke.bx, stroke.by)
}

/// Whether a stroke's first end lies on the page. Then the stroke does not lie beside it.
#[inline]
pub(crate) fn begins_on(page: &Page, stroke: &Stroke) -> bool
    ensures value { result ≡ is_on page.now stroke.now.ax stroke.now.ay }
    ensures not_beside { IsTrue result → is_beside page.now (reach stroke.now) ≡ false }
{
    is_within(page.width, stroke.ax) && is_within(page.height, stroke.ay)
}

// Whether a place lies on the page.
#[inline]
fn is_on(page: &Page, x: i32, y: i32) -> bool
    ensures { result ≡ is_on page.now x y }
{
    is_within(page.width, x) && is_within(page.height, y)
}

// Whether a place lies within a side of the page. Then nothing that reaches it lies beside that side.
#[inline]
fn is_within(side: u32, place: i32) -> bool
    ensures value { result ≡ is_within side place }
    ensures not_beside { IsTrue result → (other : ℤ) (around : ℕ) → (int_lt (int_max place other +ℤ pos around) (pos 0)
        || int_lt (pos (16 * side)) (int_min place other -ℤ pos around)) ≡ false }
{
    0 <= place && i64::from(place) <= 16 * i64::from(side)
}

/// Whether no place of an extent lies on the page.
pub(crate) fn is_beside(page: &Page, extent: Extent) -> bool
    requires { IsNear extent }
    ensures { result ≡ is_beside page.now extent }
{
    lies_beside(page.width, extent.least_x, extent.greatest_x)
        || lies_beside(page.height, extent.least_y, extent.greatest_y)
}

// Whether what reaches so far lies beside a side of the page.
fn lies_beside(side: u32, least: i64, greatest: i64) -> bool
    ensures { result ≡ (int_lt greatest (pos 0) || int_lt (pos (16 * side)) least) }
{
    greatest < 0 || 16 * i64::from(side) < least
}
