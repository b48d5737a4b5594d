//! Ways from the corner of an image, and the dots to which they lead.
ghost use Rattle.std.specs.Prelude.{◌≡◌, ◌≤◌, ◌<◌, ◌^◌, nat_abs, pos, ◌-ℤ◌, ◌*ℤ◌};
ghost use Rattle.image_raster.specs.Ways.{vector};
ghost use Rattle.image_raster.specs.Dots as dots;
ghost use Rattle.image_raster.specs.Dots.{number_at};

use directions::Turn;
use exact::{floored, product};
use plot_page::Dots;

/// A way on a page, in grains divided by the resolution.
#[derive(Clone, Copy)]
pub struct Way {
    pub x: i128,
    pub y: i128,
}

/// How far a coordinate lies from that of a corner, which is in grains.
pub fn from_corner(dots: Dots, corner: i32, z: i64) -> i128
    requires { nat_abs z ≤ 2 ^ 34 }
    ensures value { result ≡ z -ℤ pos dots.resolution *ℤ corner }
    ensures small { nat_abs result ≤ 2 ^ 45 }
{
    i128::from(z) - product(i64::from(dots.resolution), i64::from(corner))
}

/// How far a way leads from row to row of an image that is turned.
pub fn across(turn: Turn, way: Way) -> i128
    requires x_small { nat_abs way.x ≤ 2 ^ 45 }
    requires y_small { nat_abs way.y ≤ 2 ^ 45 }
    ensures value { result ≡ dots.across turn (vector way) }
    ensures small { nat_abs result ≤ 2 ^ 45 }
{
    match turn {
        Turn::None => way.x,
        Turn::Quarter => way.y,
        Turn::Half => -way.x,
        Turn::ThreeQuarters => -way.y,
    }
}

/// How far it leads along a row.
pub fn along(turn: Turn, way: Way) -> i128
    requires x_small { nat_abs way.x ≤ 2 ^ 45 }
    requires y_small { nat_abs way.y ≤ 2 ^ 45 }
    ensures value { result ≡ dots.along turn (vector way) }
    ensures small { nat_abs result ≤ 2 ^ 45 }
{
    match turn {
        Turn::None => way.y,
        Turn::Quarter => -way.x,
        Turn::Half => -way.y,
        Turn::ThreeQuarters => way.x,
    }
}

/// The number of the row, or of the dot, that is so far away, at so many dots to the inch.
pub fn number_at(density: u32, dots: Dots, away: i128) -> i128
    requires density { density ≤ 9600 }
    requires small { nat_abs away ≤ 2 ^ 45 }
    ensures { result ≡ number_at density dots.resolution away }
{
    floored(
        away * i128::from(density),
        16_256 * i128::from(dots.resolution),
    )
}
