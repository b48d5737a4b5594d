//! Which strokes are drawn, and how two of them compare.
ghost use Rattle.std.specs.Prelude.{◌≡◌};
ghost use Rattle.stroke_runs.specs.Drawn.{is_alike, is_drawn, is_joined, is_same_colour, is_same_window, has_place};

use plot_page::{Colour, PenSet, Stroke, Window};

/// Whether a stroke is drawn: its pen is selected, and its window holds a place.
pub fn is_drawn(pens: &PenSet, stroke: &Stroke) -> bool
    ensures { result ≡ is_drawn pens.now stroke.now }
{
    pens.has(stroke.pen) && has_place(stroke.window)
}

/// Whether a window holds a place.
pub fn has_place(window: Window) -> bool
    ensures { result ≡ has_place window }
{
    window.x0 <= window.x1 && window.y0 <= window.y1
}

/// Whether two strokes are drawn in one way: with the same pen, colour, width and window.
pub(crate) fn is_alike(one: &Stroke, other: &Stroke) -> bool
    ensures { result ≡ is_alike one.now other.now }
{
    one.pen == other.pen
        && one.width == other.width
        && is_same_colour(one.colour, other.colour)
        && is_same_window(one.window, other.window)
}

fn is_same_colour(one: Colour, other: Colour) -> bool
    ensures { result ≡ is_same_colour one other }
{
    one.red == other.red && one.green == other.green && one.blue == other.blue
}

// Whether two windows have the same corners.
pub(crate) fn is_same_window(one: Window, other: Window) -> bool
    ensures { result ≡ is_same_window one other }
{
    one.x0 == other.x0 && one.y0 == other.y0 && one.x1 == other.x1 && one.y1 == other.y1
}

/// Whether a stroke begins where another one ends.
pub(crate) fn is_joined(last: &Stroke, next: &Stroke) -> bool
    ensures { result ≡ is_joined last.now next.now }
{
    next.ax == last.bx && next.ay == last.by
}
