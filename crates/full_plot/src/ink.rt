//! Strokes of labels, symbols and ticks, which are not dashed.
ghost use Rattle.std.specs.Prelude.{◌≡◌, ◌≤◌, ◌^◌, ◌∷◌, [], map, nat_abs, true};
ghost use Rattle.directions.specs.Bounds.{IsWithin};
ghost use Rattle.hpgl_plot.specs.Bounds.{IsInRange};
ghost use Rattle.plot_page.specs.declared.stroke.TheConstants.{FARTHEST_END};
ghost use Rattle.hpgl_plot.specs.Machine as core;
ghost use Rattle.full_plot.specs.Texts.{moved_by, line_at, cut_far, margin_by};

use exact::Spot;
use hpgl_plot::{Plotter, Stop};
use lettering::Strokes;

/// Draws strokes at offsets from the pen, whether it is down or not. The pen stays where it is.
pub fn ink(plotter: &mut Plotter, strokes: Strokes<'_>) -> Result<(), Stop>
    ensures { core.Runs
        (core.travelled_all
        (core.seen plotter.old) true (map (line_at plotter.old.state.place) strokes.entry))
        (core.seen plotter.new) result }
{
    let start = plotter.state.place;
    let mut rest = strokes;
    'strokes: while let Some((from, to)) = rest.next_stroke() {
        ink_stroke(plotter, start, from, to)?;
    }
    Ok(())
}

/// Draws a stroke from one offset to another.
#[inline(always)]
pub fn ink_stroke(plotter: &mut Plotter, start: Spot, from: Spot, to: Spot) -> Result<(), Stop>
    requires start_in { IsInRange FARTHEST_END start }
    requires from_in { IsWithin (2 ^ 95) from }
    requires to_in { IsWithin (2 ^ 95) to }
    ensures { core.Runs
        (core.travelled (core.seen plotter.old) true (line_at start (from, to)))
        (core.seen plotter.new) result }
{
    plotter.travel_to(moved_by(start, from), moved_by(start, to), true)
}

/// A place, moved by an offset.
#[inline(always)]
pub fn moved_by(place: Spot, offset: Spot) -> Spot
    requires place_in { IsWithin (2 ^ 96) place }
    requires offset_in { IsWithin (2 ^ 95) offset }
    ensures value { result ≡ moved_by place offset }
    ensures within { IsWithin (2 ^ 97) result }
{
    Spot {
        x: place.x + offset.x,
        y: place.y + offset.y,
    }
}

// 2^96 grains.
const FAR: i128 = 79_228_162_514_264_337_593_543_950_336;

/// A left margin, moved by an offset.
pub fn margin_by(margin: Spot, offset: Spot) -> Spot
    requires margin_in { IsWithin (2 ^ 96) margin }
    requires offset_in { IsWithin (2 ^ 95) offset }
    ensures value { result ≡ margin_by margin offset }
    ensures within { IsWithin (2 ^ 96) result }
{
    let moved = moved_by(margin, offset);
    Spot {
        x: cut_far(moved.x),
        y: cut_far(moved.y),
    }
}

// A coordinate, cut to 2^96 grains from 0.
fn cut_far(grains: i128) -> i128
    ensures value { result ≡ cut_far grains }
    ensures most { nat_abs result ≤ 2 ^ 96 }
{
    grains.min(FAR).max(-FAR)
}
