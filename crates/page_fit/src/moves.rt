//! Moving strokes from the page that they were drawn on to the page around the drawing.
ghost use Rattle.std.specs.Prelude.{◌≡◌, ◌*◌, ◌≤◌, ◌^◌, ◌&&◌, ◌≤ℤ◌, ◌||◌, not, pos, true, nat_abs, nat_le};
ghost use Rattle.std.specs.Int.{int_max, int_min};
ghost use Rattle.plot_page.specs.Pens.{has_pen};
ghost use Rattle.plot_page.specs.Segments.{is_far_end};
ghost use Rattle.plot_page.specs.declared.stroke.TheConstants.{FARTHEST_END};
ghost use Rattle.page_fit.specs.Moves.{IsCornerNear, IsOnPage, are_movable, is_movable, moved, moved_if_selected, moved_strokes, moved_stroke};
ghost use Rattle.page_fit.specs.Moves.{moved_window, page_window, shifted, window_on};

use crate::around::Corner;
use crate::extent::holds_page;
use plot_page::{FARTHEST_END, Page, PenSet, Stroke, Window};

// How many grains a plotter unit has.
const GRAINS: i64 = 16;

// The window that holds no place.
const EMPTY_WINDOW: Window = Window {
    x0: 1,
    y0: 1,
    x1: 0,
    y1: 0,
};

/// Whether the ends of all strokes of the selected pens are places when they are moved to a page with this corner.
pub fn are_movable(strokes: &[Stroke], pens: &PenSet, corner: Corner) -> bool
    requires { IsCornerNear corner }
    ensures { result ≡ are_movable pens.now corner strokes.now }
{
    for stroke in strokes {
        if pens.has(stroke.pen) && !is_movable(stroke, corner) {
            return false;
        }
    }
    true
}

// Whether both ends of a stroke are places when it is moved.
fn is_movable(stroke: &Stroke, corner: Corner) -> bool
    requires { IsCornerNear corner }
    ensures { result ≡ is_movable corner stroke.now }
{
    is_end(corner, stroke.ax, stroke.ay) && is_end(corner, stroke.bx, stroke.by)
}

// Whether a place is a place when it is moved.
fn is_end(corner: Corner, x: i32, y: i32) -> bool
    requires { IsCornerNear corner }
    ensures { result ≡ is_far_end (moved corner.x x) (moved corner.y y) }
{
    is_in_range(moved(corner.x, x)) && is_in_range(moved(corner.y, y))
}

fn is_in_range(number: i64) -> bool
    ensures { result ≡ nat_le (nat_abs number) FARTHEST_END }
{
    number.unsigned_abs() <= u64::from(FARTHEST_END)
}

// A number of a place, from a side that lies so many plotter units farther.
fn moved(side: i64, place: i32) -> i64
    requires { nat_abs side ≤ 2 ^ 40 }
    ensures value { result ≡ moved side place }
    ensures near { nat_abs result ≤ 2 ^ 45 }
{
    i64::from(place) - GRAINS * side
}

/// Moves the strokes of the selected pens from the page that they were drawn on to the page around the drawing, which has
/// this corner. The other strokes stay as they are.
pub fn move_strokes(
    strokes: &mut [Stroke],
    pens: &PenSet,
    page: &Page,
    corner: Corner,
    around: &Page,
)
    requires near { IsCornerNear corner }
    requires movable { are_movable pens.now corner strokes.old ≡ true }
    ensures { strokes.new ≡ moved_strokes pens.now page.now corner around.now strokes.old }
{
    for stroke in strokes.iter_mut() {
        *stroke = moved_if_selected(stroke, pens, page, corner, around);
    }
}

// A stroke, moved if its pen is selected.
fn moved_if_selected(
    stroke: &Stroke,
    pens: &PenSet,
    page: &Page,
    corner: Corner,
    around: &Page,
) -> Stroke
    requires near { IsCornerNear corner }
    requires movable { (not (has_pen pens.now stroke.now.pen) || is_movable corner stroke.now) ≡ true }
    ensures { result ≡ moved_if_selected pens.now page.now corner around.now stroke.now }
{
    if pens.has(stroke.pen) {
        moved_stroke(stroke, page, corner, around)
    } else {
        *stroke
    }
}

// A stroke, moved.
fn moved_stroke(stroke: &Stroke, page: &Page, corner: Corner, around: &Page) -> Stroke
    requires near { IsCornerNear corner }
    requires movable { is_movable corner stroke.now ≡ true }
    ensures { result ≡ moved_stroke page.now corner around.now stroke.now }
{
    Stroke {
        pen: stroke.pen,
        colour: stroke.colour,
        width: stroke.width,
        window: moved_window(page, corner, around, stroke.window),
        ax: moved_place(corner.x, stroke.ax),
        ay: moved_place(corner.y, stroke.ay),
        bx: moved_place(corner.x, stroke.bx),
        by: moved_place(corner.y, stroke.by),
    }
}

// A number of a place, which stays one.
fn moved_place(side: i64, place: i32) -> i32
    requires side { nat_abs side ≤ 2 ^ 40 }
    requires near { nat_abs (moved side place) ≤ FARTHEST_END }
    ensures value { result ≡ moved side place }
    ensures near { nat_abs result ≤ FARTHEST_END }
{
    moved(side, place) as i32
}

// A window on the page around the drawing.
fn moved_window(page: &Page, corner: Corner, around: &Page, window: Window) -> Window
    requires { IsCornerNear corner }
    ensures value { result ≡ moved_window page.now corner around.now window }
    ensures sound { IsOnPage result }
{
    if holds_page(page, window) {
        page_window(around)
    } else {
        window_on(around, corner, window)
    }
}

// What of a moved window is on a page.
fn window_on(page: &Page, corner: Corner, window: Window) -> Window
    requires { IsCornerNear corner }
    ensures value { result ≡ window_on page.now (shifted corner window) }
    ensures sound { IsOnPage result }
{
    let x0 = low_edge(corner.x, window.x0);
    let y0 = low_edge(corner.y, window.y0);
    let x1 = high_edge(corner.x, window.x1, page.width);
    let y1 = high_edge(corner.y, window.y1, page.height);
    if x1 < x0 {
        return EMPTY_WINDOW;
    }
    if y1 < y0 {
        return EMPTY_WINDOW;
    }
    Window {
        x0: x0 as i32,
        y0: y0 as i32,
        x1: x1 as i32,
        y1: y1 as i32,
    }
}

fn low_edge(side: i64, place: i32) -> i64
    requires { nat_abs side ≤ 2 ^ 40 }
    ensures from { pos 0 ≤ℤ result }
    ensures value { result ≡ int_max (moved side place) (pos 0) }
{
    moved(side, place).max(0)
}

fn high_edge(side: i64, place: i32, width: u32) -> i64
    requires side { nat_abs side ≤ 2 ^ 40 }
    requires width { width ≤ 524288 }
    ensures to { result ≤ℤ pos 8388608 }
    ensures value { result ≡ int_min (moved side place) (pos (16 * width)) }
{
    moved(side, place).min(GRAINS * i64::from(width))
}

// The window that is the page itself.
fn page_window(page: &Page) -> Window
    ensures value { result ≡ page_window page.now }
    ensures sound { IsOnPage result }
{
    Window {
        x0: 0,
        y0: 0,
        x1: (16 * page.width) as i32,
        y1: (16 * page.height) as i32,
    }
}
