//! How a vector document shows strokes, and which labels it has.
ghost use Rattle.std.specs.Prelude.{◌≡◌, max};
ghost use Rattle.std.specs.List.{list_any};
ghost use Rattle.labels.specs.Sheets.{counted};
ghost use Rattle.stroke_runs.specs.Drawn.{is_drawn};
ghost use Rattle.stroke_runs.specs.Shown.{is_shown, is_whole_page, whole_page};

use crate::drawn::{is_drawn, is_same_window};
use crate::sheets::between;
use labels::Label;
use plot_page::{Page, PenSet, Stroke, Window};

/// The least width of a stroke in a vector document, in grains: what 1.5 pixels are at 1016 dots per inch, so that the lines
/// of a solid fill meet.
pub const LEAST_WIDTH: u32 = 24;

/// The width of a stroke in a vector document, in grains.
pub fn shown_width(stroke: &Stroke) -> u32
    ensures { result ≡ max LEAST_WIDTH stroke.now.width }
{
    LEAST_WIDTH.max(stroke.width)
}

/// Whether a window is the whole page.
pub fn is_whole_page(page: &Page, window: Window) -> bool
    ensures { result ≡ is_whole_page page.now window }
{
    is_same_window(window, whole_page(page))
}

// The whole page as a window.
fn whole_page(page: &Page) -> Window
    ensures { result ≡ whole_page page.now }
{
    Window {
        x0: 0,
        y0: 0,
        x1: (16 * page.width) as i32,
        y1: (16 * page.height) as i32,
    }
}

/// Whether one of the strokes of a label is drawn on a sheet, before which there are so many strokes.
pub fn is_shown(pens: &PenSet, strokes: &[Stroke], before: usize, label: &Label) -> bool
    ensures { result ≡ is_shown pens.now strokes.now (counted before label.now) }
{
    let first = label.first.saturating_sub(before);
    let after = label.after.saturating_sub(before);
    has_drawn(pens, between(strokes, first, after))
}

/// Whether one of these strokes is drawn.
pub fn has_drawn(pens: &PenSet, strokes: &[Stroke]) -> bool
    ensures { result ≡ list_any (is_drawn pens.now) strokes.now }
{
    for stroke in strokes {
        if is_drawn(pens, stroke) {
            return true;
        }
    }
    false
}
