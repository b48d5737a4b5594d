//! The centre of the circle through three places.
ghost use Rattle.std.specs.Prelude.{◌≡◌, ◌≤◌, ◌<◌, ◌^◌, pos, nat_abs, ◌-ℤ◌, ◌*ℤ◌};
ghost use Rattle.exact.specs.Fraction.{round, quotient};
ghost use Rattle.directions.specs.Bounds.{IsWithin};
ghost use Rattle.curves.specs.Arcs.{centre_of};
ghost use Rattle.curves.specs.Bounds.{IsNotZero};
ghost use Rattle.curves.specs.Vectors.{cross};

use crate::vectors::{cross, divided, square};
use exact::Spot;

// From a to the centre of the circle through a, a + b and a + c, in ticks of 1/256 grain.
pub fn centre(b: Spot, c: Spot) -> Spot
    requires b_in { IsWithin (2 ^ 28) b }
    requires c_in { IsWithin (2 ^ 28) c }
    requires apart { 0 < nat_abs (cross b c) }
    ensures value { result ≡ centre_of b c }
    ensures not_zero { IsNotZero result }
    ensures within { IsWithin (2 ^ 95) result }
{
    let twice = 2 * cross(b, c);
    let (bb, cc) = (square(b), square(c));
    Spot {
        x: part(bb, c.y, cc, b.y, twice),
        y: part(cc, b.x, bb, c.x, twice),
    }
}

// A coordinate of the way to the centre.
fn part(bb: i128, c: i128, cc: i128, b: i128, twice: i128) -> i128
    requires bb_in { nat_abs bb ≤ 2 ^ 57 }
    requires c_in { nat_abs c ≤ 2 ^ 28 }
    requires cc_in { nat_abs cc ≤ 2 ^ 57 }
    requires b_in { nat_abs b ≤ 2 ^ 28 }
    requires twice_in { nat_abs twice ≤ 2 ^ 58 }
    requires not_zero { 0 < nat_abs twice }
    ensures value { result ≡ round (quotient (pos 256 *ℤ (bb *ℤ c -ℤ cc *ℤ b)) twice) }
    ensures most { nat_abs result ≤ 2 ^ 95 }
{
    divided(256 * (bb * c - cc * b), twice)
}
