//! The part of the centre line of a stroke that is in its window.
ghost use Rattle.std.specs.Prelude.{◌≡◌, ◌≤◌, ◌^◌, ◌-ℤ◌, ◌*ℤ◌, pos, nat_abs};
ghost use Rattle.exact.specs.Ranges.{is_between};
ghost use Rattle.dxf.specs.Cuts.{coordinate_at, cut_line, earlier, holds, is_before, is_open, is_whole, later, left_side, line_of, lower_side, narrowed, own_line, point_at, point_of, right_side, share_of, span_of, upper_side, weighted, whole_way};

use crate::groups::in_parts;
use exact::rounded;
use plot_page::{Stroke, Window};

/// A point of a document, in parts of a millimetre from the lower left corner of the page.
#[derive(Clone, Copy)]
pub(crate) struct Point {
    pub(crate) x: i128,
    pub(crate) y: i128,
}

/// A straight line.
#[derive(Clone, Copy)]
pub(crate) struct Line {
    pub(crate) from: Point,
    pub(crate) to: Point,
}

/// A share of the way from one end of a stroke to the other.
#[derive(Clone, Copy)]
pub(crate) struct Share {
    pub(crate) over: u32,
    pub(crate) under: u32,
}

/// Where an edge of a window cuts a stroke: what is on its inner side are the shares t of the way with p t <= q.
#[derive(Clone, Copy)]
pub(crate) struct Side {
    pub(crate) p: i32,
    pub(crate) q: i32,
}

/// A part of a stroke, from one share of its way to another, or nothing.
#[derive(Clone, Copy)]
pub(crate) struct Span {
    pub(crate) from: Share,
    pub(crate) to: Share,
    pub(crate) is_seen: bool,
}

// What is seen of the centre line of a stroke: all of it, a part, or nothing.
pub(crate) fn line_of(stroke: &Stroke) -> Option<Line>
    ensures { result ≡ line_of stroke.now }
{
    if is_whole(stroke) {
        Some(own_line(stroke))
    } else {
        cut_line(stroke, span_of(stroke))
    }
}

// A place of the page as a point of the document.
pub(crate) fn point_of(x: i32, y: i32) -> Point
    ensures { result ≡ point_of x y }
{
    Point {
        x: in_parts(x),
        y: in_parts(y),
    }
}

// A stroke that no window cuts.
fn own_line(stroke: &Stroke) -> Line
    ensures { result ≡ own_line stroke.now }
{
    Line {
        from: point_of(stroke.ax, stroke.ay),
        to: point_of(stroke.bx, stroke.by),
    }
}

// Whether its window cuts nothing of a stroke.
pub(crate) fn is_whole(stroke: &Stroke) -> bool
    ensures { result ≡ is_whole stroke.now }
{
    holds(stroke.window, stroke.ax, stroke.ay) && holds(stroke.window, stroke.bx, stroke.by)
}

// Whether a window holds a place.
fn holds(window: Window, x: i32, y: i32) -> bool
    ensures { result ≡ holds window x y }
{
    is_between(window.x0, window.x1, x) && is_between(window.y0, window.y1, y)
}

// Whether a number is from the least to the greatest, both included.
fn is_between(least: i32, greatest: i32, number: i32) -> bool
    ensures { result ≡ is_between least greatest number }
{
    least <= number && number <= greatest
}

// The part of a stroke that is in its window.
fn span_of(stroke: &Stroke) -> Span
    ensures { result ≡ span_of stroke.now }
{
    let left = narrowed(left_side(stroke), whole_way());
    let right = narrowed(right_side(stroke), left);
    let lower = narrowed(lower_side(stroke), right);
    narrowed(upper_side(stroke), lower)
}

// Where the left edge of its window cuts a stroke.
fn left_side(stroke: &Stroke) -> Side
    ensures { result ≡ left_side stroke.now }
{
    Side {
        p: difference(stroke.ax, stroke.bx),
        q: difference(stroke.ax, stroke.window.x0),
    }
}

// Where the right edge of its window cuts a stroke.
fn right_side(stroke: &Stroke) -> Side
    ensures { result ≡ right_side stroke.now }
{
    Side {
        p: difference(stroke.bx, stroke.ax),
        q: difference(stroke.window.x1, stroke.ax),
    }
}

// Where the lower edge of its window cuts a stroke.
fn lower_side(stroke: &Stroke) -> Side
    ensures { result ≡ lower_side stroke.now }
{
    Side {
        p: difference(stroke.ay, stroke.by),
        q: difference(stroke.ay, stroke.window.y0),
    }
}

// Where the upper edge of its window cuts a stroke.
fn upper_side(stroke: &Stroke) -> Side
    ensures { result ≡ upper_side stroke.now }
{
    Side {
        p: difference(stroke.by, stroke.ay),
        q: difference(stroke.window.y1, stroke.ay),
    }
}

// From the first end of a stroke to the other one.
fn whole_way() -> Span
    ensures { result ≡ whole_way }
{
    Span {
        from: Share { over: 0, under: 1 },
        to: Share { over: 1, under: 1 },
        is_seen: true,
    }
}

// How much a number is above another one.
fn difference(number: i32, other: i32) -> i32
    requires number { nat_abs number ≤ 134217712 }
    requires other { nat_abs other ≤ 134217712 }
    ensures { result ≡ number -ℤ other }
{
    number - other
}

// The part of a span that is on the inner side of an edge of a window: the shares t with p t <= q.
fn narrowed(side: Side, span: Span) -> Span
    ensures { result ≡ narrowed side span }
{
    if side.q < 0 {
        if side.p < 0 {
            Span {
                from: later(span.from, share_of(side)),
                ..span
            }
        } else {
            Span {
                is_seen: false,
                ..span
            }
        }
    } else if side.p > 0 {
        Span {
            to: earlier(span.to, share_of(side)),
            ..span
        }
    } else {
        span
    }
}

// The share of the way at which an edge cuts it: the size of q over the size of p.
fn share_of(side: Side) -> Share
    ensures { result ≡ share_of side }
{
    Share {
        over: side.q.unsigned_abs(),
        under: side.p.unsigned_abs(),
    }
}

// Whether one share is less than another.
fn is_before(one: Share, other: Share) -> bool
    ensures { result ≡ is_before one other }
{
    u64::from(one.over) * u64::from(other.under) < u64::from(other.over) * u64::from(one.under)
}

fn earlier(one: Share, other: Share) -> Share
    ensures { result ≡ earlier one other }
{
    if is_before(other, one) { other } else { one }
}

fn later(one: Share, other: Share) -> Share
    ensures { result ≡ later one other }
{
    if is_before(one, other) { other } else { one }
}

// The line of a span of a stroke, if it holds a place.
fn cut_line(stroke: &Stroke, span: Span) -> Option<Line>
    ensures { result ≡ cut_line stroke.now span }
{
    if !is_open(span) {
        return None;
    }
    Some(Line {
        from: point_at(stroke, span.from),
        to: point_at(stroke, span.to),
    })
}

// Whether a span holds a place.
fn is_open(span: Span) -> bool
    ensures { result ≡ is_open span }
{
    span.is_seen && !is_before(span.to, span.from)
}

// The point of a stroke after a share of its way.
fn point_at(stroke: &Stroke, share: Share) -> Point
    ensures { result ≡ point_at stroke.now share }
{
    Point {
        x: coordinate_at(stroke.ax, stroke.bx, share),
        y: coordinate_at(stroke.ay, stroke.by, share),
    }
}

// A coordinate after a share of the way from `a` to `b`, rounded to a whole part.
fn coordinate_at(a: i32, b: i32, share: Share) -> i128
    requires a { nat_abs a ≤ 134217712 }
    requires b { nat_abs b ≤ 134217712 }
    ensures { result ≡ coordinate_at a b share }
{
    rounded(
        15_625 * weighted(a, b, share),
        i128::from(share.under.max(1)),
    )
}

// The share, times its divisor, of the way from `a` to `b`, from 0 on.
fn weighted(a: i32, b: i32, share: Share) -> i128
    requires a { nat_abs a ≤ 134217712 }
    requires b { nat_abs b ≤ 134217712 }
    ensures value { result ≡ weighted a b share }
    ensures most { nat_abs result ≤ 2 ^ 61 }
{
    product(a, share.under) + product(difference(b, a), share.over)
}

// A number so many times.
fn product(number: i32, times: u32) -> i128
    requires { nat_abs number ≤ 268435456 }
    ensures value { result ≡ number *ℤ pos times }
    ensures most { nat_abs result ≤ 2 ^ 60 }
{
    i128::from(number) * i128::from(times)
}
