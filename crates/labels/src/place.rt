//! Places of letters.
ghost use Rattle.std.specs.Prelude.{◌≡◌, ◌≤◌, nat_abs};
ghost use Rattle.plot_page.specs.declared.stroke.TheConstants.{FARTHEST_END};
ghost use Rattle.labels.specs.Labels.{IsNear, cut, place_of};

use exact::Spot;
use plot_page::FARTHEST_END;

/// A place on the page, in grains of 1/16 plotter unit from its lower left corner.
#[derive(Clone, Copy, Debug, PartialEq, Eq)]
pub struct Place {
    pub x: i32,
    pub y: i32,
}

impl Place {
    /// A place, or the nearest one at which strokes may end.
    pub fn of(spot: Spot) -> Place
        ensures value { result ≡ place_of spot }
        ensures near { IsNear result }
    {
        Place {
            x: cut(spot.x),
            y: cut(spot.y),
        }
    }
}

// A number of a place, cut to what the ends of strokes may have.
pub(crate) fn cut(number: i128) -> i32
    ensures value { result ≡ cut number }
    ensures near { nat_abs result ≤ FARTHEST_END }
{
    let farthest = i128::from(FARTHEST_END);
    number.min(farthest).max(-farthest) as i32
}
