//! Strokes that are turned with their page.
ghost use Rattle.std.specs.Prelude.{◌≡◌, ◌||◌, not, true};
ghost use Rattle.plot_page.specs.Pens.{has_pen};
ghost use Rattle.plot_page.specs.Strokes.{is_on_roll};
ghost use Rattle.turning.specs.Turns.{are_turnable, has_corners, has_ends, is_corner_at, is_end_at, is_turnable, spot};
ghost use Rattle.turning.specs.Turns.{turned_if_selected, turned_segment, turned_strokes, window_between};

use crate::places::turned_place;
use directions::Turn;
use exact::Spot;
use labels::Place;
use plot_page::{FARTHEST_EDGE, FARTHEST_END, Page, PenSet, Stroke, Window};

/// Whether all strokes of the selected pens are strokes after a turn of their page: the ends are places, and the corners of the
/// windows lie on the longest page. All that lies on the page does so; but what lies 8,388,607 plotter units below it, say, would
/// lie farther than that right of its new lower left corner.
pub fn are_turnable(strokes: &[Stroke], pens: &PenSet, turn: Turn, page: &Page) -> bool
    ensures { result ≡ are_turnable pens.now turn page.now strokes.now }
{
    for stroke in strokes {
        if pens.has(stroke.pen) && !is_turnable(stroke, turn, page) {
            return false;
        }
    }
    true
}

// Whether a stroke is one after the turn.
fn is_turnable(stroke: &Stroke, turn: Turn, page: &Page) -> bool
    ensures { result ≡ is_turnable turn page.now stroke.now }
{
    has_corners(stroke.window, turn, page) && has_ends(stroke, turn, page)
}

// Whether the corners of a window lie on the longest page after the turn.
fn has_corners(window: Window, turn: Turn, page: &Page) -> bool
    ensures { result ≡ has_corners turn page.now window }
{
    is_corner(turned_place(turn, page, window.x0, window.y0))
        && is_corner(turned_place(turn, page, window.x1, window.y1))
}

// Whether both ends of a stroke are places after the turn.
fn has_ends(stroke: &Stroke, turn: Turn, page: &Page) -> bool
    ensures { result ≡ has_ends turn page.now stroke.now }
{
    is_end(turned_place(turn, page, stroke.ax, stroke.ay))
        && is_end(turned_place(turn, page, stroke.bx, stroke.by))
}

fn is_corner(place: Spot) -> bool
    ensures { result ≡ is_corner_at place }
{
    is_on_roll(place.x) && is_on_roll(place.y)
}

fn is_on_roll(number: i128) -> bool
    ensures { result ≡ is_on_roll number }
{
    0 <= number && number <= i128::from(FARTHEST_EDGE)
}

fn is_end(place: Spot) -> bool
    ensures { result ≡ is_end_at place }
{
    place.x.unsigned_abs() <= u128::from(FARTHEST_END)
        && place.y.unsigned_abs() <= u128::from(FARTHEST_END)
}

/// Turns the strokes of the selected pens with their page. The other strokes stay as they are.
pub fn turn_strokes(strokes: &mut [Stroke], pens: &PenSet, turn: Turn, page: &Page)
    requires { are_turnable pens.now turn page.now strokes.old ≡ true }
    ensures { strokes.new ≡ turned_strokes pens.now turn page.now strokes.old }
{
    for stroke in strokes.iter_mut() {
        *stroke = turned_if_selected(stroke, pens, turn, page);
    }
}

// A stroke, turned if its pen is selected.
fn turned_if_selected(stroke: &Stroke, pens: &PenSet, turn: Turn, page: &Page) -> Stroke
    requires { (not (has_pen pens.now stroke.now.pen) || is_turnable turn page.now stroke.now) ≡ true }
    ensures { result ≡ turned_if_selected pens.now turn page.now stroke.now }
{
    if pens.has(stroke.pen) {
        turned_stroke(stroke, turn, page)
    } else {
        *stroke
    }
}

// A stroke, turned.
fn turned_stroke(stroke: &Stroke, turn: Turn, page: &Page) -> Stroke
    requires { is_turnable turn page.now stroke.now ≡ true }
    ensures { result ≡ turned_segment turn page.now stroke.now }
{
    let window = stroke.window;
    let low = Place::of(turned_place(turn, page, window.x0, window.y0));
    let high = Place::of(turned_place(turn, page, window.x1, window.y1));
    let first = Place::of(turned_place(turn, page, stroke.ax, stroke.ay));
    let last = Place::of(turned_place(turn, page, stroke.bx, stroke.by));
    Stroke {
        pen: stroke.pen,
        colour: stroke.colour,
        width: stroke.width,
        window: window_between(turn, low, high),
        ax: first.x,
        ay: first.y,
        bx: last.x,
        by: last.y,
    }
}

// The window whose lower left and upper right corners these were before the turn.
fn window_between(turn: Turn, low: Place, high: Place) -> Window
    ensures { result ≡ window_between turn (spot low.x low.y) (spot high.x high.y) }
{
    let (x0, y0, x1, y1) = match turn {
        Turn::None => (low.x, low.y, high.x, high.y),
        Turn::Quarter => (high.x, low.y, low.x, high.y),
        Turn::Half => (high.x, high.y, low.x, low.y),
        Turn::ThreeQuarters => (low.x, high.y, high.x, low.y),
    };
    Window { x0, y0, x1, y1 }
}
