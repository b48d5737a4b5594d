//! Strokes of letters, which are twice as wide as the pen if the font is bold.
ghost use Rattle.std.specs.Prelude.{◌≡◌, ◌≤◌, ◌^◌, ◌∷◌, [], map, Some};
ghost use Rattle.directions.specs.Bounds.{IsWithin};
ghost use Rattle.hpgl_plot.specs.Bounds.{IsInRange};
ghost use Rattle.hpgl_plot.specs.Machine as core;
ghost use Rattle.plot_page.specs.declared.stroke.TheConstants.{FARTHEST_END, GREATEST_WIDTH};
ghost use Rattle.full_plot.specs.Bold as bold;
ghost use Rattle.full_plot.specs.Texts.{letters_at_pen, line_at};

use crate::ink::{ink, moved_by};
use exact::Spot;
use hpgl_plot::{Plotter, Stop};
use lettering::Strokes;
use plot_page::{GREATEST_WIDTH, MOST_STROKES, Stroke};

/// Draws the strokes of letters at offsets from the pen, whether it is down or not, in twice the pen's width if they are
/// bold. The pen stays where it is.
pub fn ink_letters(plotter: &mut Plotter, strokes: Strokes<'_>, is_bold: bool) -> Result<(), Stop>
    ensures { core.Runs
        (letters_at_pen is_bold (core.seen plotter.old) strokes.entry) (core.seen plotter.new) result }
{
    if is_bold {
        ink_bold(plotter, strokes)
    } else {
        ink(plotter, strokes)
    }
}

// The same of bold ones.
fn ink_bold(plotter: &mut Plotter, strokes: Strokes<'_>) -> Result<(), Stop>
    ensures { core.Runs
        (bold.bold_lines (core.seen plotter.old) (map (line_at plotter.old.state.place) strokes.entry))
        (core.seen plotter.new) result }
{
    let start = plotter.state.place;
    let mut rest = strokes;
    'strokes: while let Some((from, to)) = rest.next_stroke() {
        ink_bold_stroke(plotter, start, from, to)?;
    }
    Ok(())
}

// A bold stroke from one offset to another.
fn ink_bold_stroke(plotter: &mut Plotter, start: Spot, from: Spot, to: Spot) -> Result<(), Stop>
    requires start_in { IsInRange FARTHEST_END start }
    requires from_in { IsWithin (2 ^ 95) from }
    requires to_in { IsWithin (2 ^ 95) to }
    ensures { core.Runs
        (bold.bold_line (core.seen plotter.old) (line_at start (from, to))) (core.seen plotter.new) result }
{
    bold_line(plotter, moved_by(start, from), moved_by(start, to))
}

/// A bold stroke from one place to another.
pub fn bold_line(plotter: &mut Plotter, from: Spot, to: Spot) -> Result<(), Stop>
    ensures { core.Runs
        (bold.bold_line (core.seen plotter.old) (from ∷ (to ∷ []))) (core.seen plotter.new) result }
{
    plotter.begin(from)?;
    plotter.begin(to)?;
    if plotter.draws_nothing() {
        return Ok(());
    }
    let width = bold_width(plotter.width_of(plotter.state.pen));
    let stroke = plotter.line_of_width(width, from, to);
    keep_if_room(plotter, stroke)
}

// Twice a width, but at most the greatest.
fn bold_width(width: u32) -> u32
    requires { width ≤ GREATEST_WIDTH }
    ensures value { result ≡ bold.bold_width width }
    ensures most { result ≤ GREATEST_WIDTH }
{
    (2 * width).min(GREATEST_WIDTH)
}

// Keeps a stroke, if a plot may have one more.
fn keep_if_room(plotter: &mut Plotter, stroke: Stroke) -> Result<(), Stop>
    ensures { core.Runs
        (Some (core.with_strokes (core.seen plotter.old) plotter.old.state (stroke ∷ []))) (core.seen plotter.new) result }
{
    if plotter.strokes.len() >= MOST_STROKES {
        plotter.is_full = true;
        return Ok(());
    }
    plotter.strokes.push(stroke).map_err(|_| Stop::Memory)
}
