//! How far strokes and areas are seen.
ghost use Rattle.std.specs.Prelude.{◌≡◌, ◌≤◌, ◌^◌, ◌*◌, ◌+ℤ◌, ◌-ℤ◌, ◌&&◌, fold, pos, nat_abs, int_le, IfSome};
ghost use Rattle.std.specs.Int.{int_max, int_min};
ghost use Rattle.areas.specs.Views.{shapes_in};
ghost use Rattle.areas.specs.Walks.{shape_in};
ghost use Rattle.page_fit.specs.Extents.{IsNear, cut_to, half_width, holds_page, is_empty, joined, joined_with, reach, seen, with_stroke};
ghost use Rattle.page_fit.specs.Shapes.{diagonal_of, shapes_extent};

use crate::diagonal::diagonal;
use areas::{NextShape, ShapeWalk, Shapes};
use plot_page::{Page, PenSet, Stroke, Window};

/// How far shapes reach, in grains from the lower left corner of the page that they are drawn on.
#[derive(Clone, Copy, Debug, PartialEq, Eq)]
pub struct Extent {
    pub least_x: i64,
    pub least_y: i64,
    pub greatest_x: i64,
    pub greatest_y: i64,
}

impl Extent {
    // A stroke with half its width around it.
    pub(crate) fn of(stroke: &Stroke) -> Extent
        ensures value { result ≡ reach stroke.now }
        ensures near { IsNear result }
    {
        let around = half_width(stroke);
        Extent {
            least_x: least(stroke.ax, stroke.bx, around),
            least_y: least(stroke.ay, stroke.by, around),
            greatest_x: greatest(stroke.ax, stroke.bx, around),
            greatest_y: greatest(stroke.ay, stroke.by, around),
        }
    }

    // What of it lies in a window.
    fn cut_to(self, window: Window) -> Extent
        requires near { IsNear self }
        requires x0 { nat_abs window.x0 ≤ 8388608 }
        requires y0 { nat_abs window.y0 ≤ 8388608 }
        requires x1 { nat_abs window.x1 ≤ 8388608 }
        requires y1 { nat_abs window.y1 ≤ 8388608 }
        ensures value { result ≡ cut_to window self }
        ensures near { IsNear result }
    {
        Extent {
            least_x: not_below(self.least_x, window.x0),
            least_y: not_below(self.least_y, window.y0),
            greatest_x: not_above(self.greatest_x, window.x1),
            greatest_y: not_above(self.greatest_y, window.y1),
        }
    }

    // Whether it holds no place.
    fn is_empty(self) -> bool
        ensures { result ≡ is_empty self }
    {
        self.greatest_x < self.least_x || self.greatest_y < self.least_y
    }

    // What holds both.
    fn joined(self, more: Extent) -> Extent
        requires near { IsNear self }
        requires more_near { IsNear more }
        ensures value { result ≡ joined self more }
        ensures near { IsNear result }
    {
        Extent {
            least_x: lesser(self.least_x, more.least_x),
            least_y: lesser(self.least_y, more.least_y),
            greatest_x: greater(self.greatest_x, more.greatest_x),
            greatest_y: greater(self.greatest_y, more.greatest_y),
        }
    }
}

// Half the width of a stroke, in grains.
fn half_width(stroke: &Stroke) -> u32
    ensures value { result ≡ half_width stroke.now }
    ensures most { result ≤ 6400 }
{
    stroke.width.div_ceil(2)
}

// How far down two ends reach.
fn least(a: i32, b: i32, around: u32) -> i64
    requires around { around ≤ 6400 }
    requires a { nat_abs a ≤ 134217712 }
    requires b { nat_abs b ≤ 134217712 }
    ensures value { result ≡ int_min a b -ℤ pos around }
    ensures near { nat_abs result ≤ 2 ^ 28 }
{
    i64::from(a.min(b)) - i64::from(around)
}

// How far up two ends reach.
fn greatest(a: i32, b: i32, around: u32) -> i64
    requires around { around ≤ 6400 }
    requires a { nat_abs a ≤ 134217712 }
    requires b { nat_abs b ≤ 134217712 }
    ensures value { result ≡ int_max a b +ℤ pos around }
    ensures near { nat_abs result ≤ 2 ^ 28 }
{
    i64::from(a.max(b)) + i64::from(around)
}

fn lesser(a: i64, b: i64) -> i64
    ensures value { result ≡ int_min a b }
    ensures near { nat_abs a ≤ 2 ^ 28 → nat_abs b ≤ 2 ^ 28 → nat_abs result ≤ 2 ^ 28 }
{
    a.min(b)
}

fn greater(a: i64, b: i64) -> i64
    ensures value { result ≡ int_max a b }
    ensures near { nat_abs a ≤ 2 ^ 28 → nat_abs b ≤ 2 ^ 28 → nat_abs result ≤ 2 ^ 28 }
{
    a.max(b)
}

// A place, or an edge of a window that lies farther up.
fn not_below(place: i64, edge: i32) -> i64
    requires edge { nat_abs edge ≤ 8388608 }
    ensures value { result ≡ int_max place edge }
    ensures near { nat_abs place ≤ 2 ^ 28 → nat_abs result ≤ 2 ^ 28 }
{
    place.max(i64::from(edge))
}

// A place, or an edge of a window that lies farther down.
fn not_above(place: i64, edge: i32) -> i64
    requires edge { nat_abs edge ≤ 8388608 }
    ensures value { result ≡ int_min place edge }
    ensures near { nat_abs place ≤ 2 ^ 28 → nat_abs result ≤ 2 ^ 28 }
{
    place.min(i64::from(edge))
}

/// Whether a window is the whole page, or more.
pub(crate) fn holds_page(page: &Page, window: Window) -> bool
    ensures { result ≡ holds_page page.now window }
{
    spans(window.x0, window.x1, page.width) && spans(window.y0, window.y1, page.height)
}

// Whether two edges of a window hold a whole side of the page.
fn spans(low: i32, high: i32, side: u32) -> bool
    ensures { result ≡ (int_le low (pos 0) && int_le (pos (16 * side)) high) }
{
    low <= 0 && 16 * i64::from(side) <= i64::from(high)
}

/// How far the shapes of the selected pens are seen that are drawn on this page: a stroke with half its width, an area as the box
/// of its edges. Their windows cut them, but the edges of the page do not. `None` if nothing is seen.
pub fn extent_of(shapes: Shapes<'_>, pens: PenSet, page: &Page) -> Option<Extent>
    ensures value { result ≡ shapes_extent pens page.now (shapes_in shapes.entry) }
    ensures near { IfSome result IsNear }
{
    let mut found = None;
    let mut rest = ShapeWalk::new(shapes);
    'shapes: while let Some(shape) = rest.next() {
        found = with_shape(found, shape, &pens, page);
    }
    found
}

// With a shape, if its pen is selected and something of it is seen.
#[inline]
fn with_shape(
    found: Option<Extent>,
    shape: NextShape<'_>,
    pens: &PenSet,
    page: &Page,
) -> Option<Extent>
    requires { IfSome found IsNear }
    ensures value { result ≡ fold (with_stroke pens.now page.now) found (diagonal_of (shape_in shape.entry).strokes) }
    ensures near { IfSome result IsNear }
{
    match shape {
        NextShape::Stroke(stroke) => with_stroke(found, stroke, pens, page),
        NextShape::Area([first, more @ ..], _) => {
            with_stroke(found, &diagonal(first, more), pens, page)
        }
        NextShape::Area([], _) => found,
    }
}

// With a stroke, if its pen is selected and something of it is seen.
#[inline]
fn with_stroke(found: Option<Extent>, stroke: &Stroke, pens: &PenSet, page: &Page) -> Option<Extent>
    requires { IfSome found IsNear }
    ensures value { result ≡ with_stroke pens.now page.now found stroke.now }
    ensures near { IfSome result IsNear }
{
    if !pens.has(stroke.pen) {
        return found;
    }
    let seen = seen(page, stroke);
    if seen.is_empty() {
        return found;
    }
    match found {
        Some(extent) => Some(extent.joined(seen)),
        None => Some(seen),
    }
}

// How far a stroke is seen.
#[inline]
fn seen(page: &Page, stroke: &Stroke) -> Extent
    ensures value { result ≡ seen page.now stroke.now }
    ensures near { IsNear result }
{
    let reach = Extent::of(stroke);
    if holds_page(page, stroke.window) {
        reach
    } else {
        reach.cut_to(stroke.window)
    }
}
