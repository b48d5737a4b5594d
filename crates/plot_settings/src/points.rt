//! P1 and P2.
ghost use Rattle.std.specs.Prelude.{◌≡◌};
ghost use Rattle.plot_frame.specs.Bounds.{IsPoints, IsEnds};
ghost use Rattle.plot_settings.specs.Bounds.{IsPlotterUnit};
ghost use Rattle.plot_settings.specs.Parameters.{moved_points, moved_ends};

use plot_frame::{Ends, Pair};

/// P1 at another place, which an IP (Input P1 and P2) with two numbers names in plotter units, and
/// P2 as far from it as before.
pub fn points_moved_to(points: Pair<Ends>, x: i64, y: i64) -> Pair<Ends>
    requires points { IsPoints points }
    requires x_in { IsPlotterUnit x }
    requires y_in { IsPlotterUnit y }
    ensures value { result ≡ moved_points points x y }
    ensures sound { IsPoints result }
{
    Pair {
        x: ends_moved_to(points.x, x),
        y: ends_moved_to(points.y, y),
    }
}

// The same on an axis.
fn ends_moved_to(ends: Ends, first: i64) -> Ends
    requires ends { IsEnds ends }
    requires first_in { IsPlotterUnit first }
    ensures value { result ≡ moved_ends ends first }
    ensures sound { IsEnds result }
{
    Ends {
        first,
        last: first + (ends.last - ends.first),
    }
}
