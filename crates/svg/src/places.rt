//! Places of a document, in grains from the left upper corner of the page.
ghost use Rattle.std.specs.Prelude.{◌≡◌, ◌≤◌, ◌-ℤ◌, nat_abs};
ghost use Rattle.svg.specs.Places.{end_of, IsNear, offset, place_of, rectangle_of, start_of, turned};

use plot_page::{Page, Stroke};

/// A place, or how far one place is from another: to the right, and downward.
#[derive(Clone, Copy)]
pub(crate) struct Place {
    pub(crate) x: i32,
    pub(crate) y: i32,
}

/// A rectangle: its left upper corner, its width and its height.
#[derive(Clone, Copy, PartialEq, Eq, PartialOrd, Ord)]
pub(crate) struct Rectangle {
    pub(crate) x: i32,
    pub(crate) y: i32,
    pub(crate) width: i32,
    pub(crate) height: i32,
}

// A y of the page, from its upper edge downward.
fn turned(page: &Page, y: i32) -> i32
    requires { nat_abs y ≤ 134217712 }
    ensures value { result ≡ turned page.now y }
    ensures near { nat_abs result ≤ 268435456 }
{
    (16 * page.height) as i32 - y
}

// A place of the page.
fn place_of(page: &Page, x: i32, y: i32) -> Place
    requires x { nat_abs x ≤ 134217712 }
    requires y { nat_abs y ≤ 134217712 }
    ensures value { result ≡ place_of page.now x y }
    ensures near { IsNear result }
{
    Place {
        x,
        y: turned(page, y),
    }
}

// Where a stroke begins.
pub(crate) fn start_of(page: &Page, stroke: &Stroke) -> Place
    ensures value { result ≡ start_of page.now stroke.now }
    ensures near { IsNear result }
{
    place_of(page, stroke.ax, stroke.ay)
}

// Where it ends.
pub(crate) fn end_of(page: &Page, stroke: &Stroke) -> Place
    ensures value { result ≡ end_of page.now stroke.now }
    ensures near { IsNear result }
{
    place_of(page, stroke.bx, stroke.by)
}

// The rectangle of the window of a stroke.
pub(crate) fn rectangle_of(page: &Page, stroke: &Stroke) -> Rectangle
    ensures { result ≡ rectangle_of page.now stroke.now.window }
{
    Rectangle {
        x: stroke.window.x0,
        y: turned(page, stroke.window.y1),
        width: distance(stroke.window.x0, stroke.window.x1),
        height: distance(stroke.window.y0, stroke.window.y1),
    }
}

// How far one place is from another.
fn distance(from: i32, to: i32) -> i32
    requires from { nat_abs from ≤ 268435456 }
    requires to { nat_abs to ≤ 268435456 }
    ensures { result ≡ to -ℤ from }
{
    to - from
}

// How far it is from one place to another.
pub(crate) fn offset(from: Place, to: Place) -> Place
    requires from { IsNear from }
    requires to { IsNear to }
    ensures { result ≡ offset from to }
{
    Place {
        x: distance(from.x, to.x),
        y: distance(from.y, to.y),
    }
}
