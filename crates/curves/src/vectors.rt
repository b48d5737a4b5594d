//! Vectors of whole numbers.
ghost use Rattle.std.specs.Prelude.{◌≡◌, ◌≤◌, ◌<◌, ◌^◌, pos, nat_abs};
ghost use Rattle.exact.specs.Fraction.{round, quotient};
ghost use Rattle.directions.specs.Bounds.{IsWithin};
ghost use Rattle.directions.specs.Directions.{square_of};
ghost use Rattle.curves.specs.Bounds.{IsNotZero};
ghost use Rattle.curves.specs.Vectors.{way, dot, cross, turned_against, unit_of};

use directions::Direction;
use exact::{Spot, rounded};

// The vector that leads from one place to another.
pub fn way(from: Spot, to: Spot) -> Spot
    requires from_in { IsWithin (2 ^ 60) from }
    requires to_in { IsWithin (2 ^ 60) to }
    ensures { result ≡ way from to }
{
    Spot {
        x: to.x - from.x,
        y: to.y - from.y,
    }
}

// The dot product of two vectors.
pub fn dot(v: Spot, w: Spot) -> i128
    requires v_in { IsWithin (2 ^ 60) v }
    requires w_in { IsWithin (2 ^ 60) w }
    ensures { result ≡ dot v w }
{
    v.x * w.x + v.y * w.y
}

// Their cross product.
pub fn cross(v: Spot, w: Spot) -> i128
    requires v_in { IsWithin (2 ^ 60) v }
    requires w_in { IsWithin (2 ^ 60) w }
    ensures { result ≡ cross v w }
{
    v.x * w.y - v.y * w.x
}

// The square of a vector's length.
pub fn square(v: Spot) -> i128
    requires { IsWithin (2 ^ 60) v }
    ensures { result ≡ pos (square_of v) }
{
    dot(v, v)
}

// A vector turned by 90 degrees against the sense of an arc.
pub fn turned_against(clockwise: bool, v: Spot) -> Spot
    requires { IsWithin (2 ^ 120) v }
    ensures { result ≡ turned_against clockwise v }
{
    if clockwise {
        Spot { x: -v.y, y: v.x }
    } else {
        Spot { x: v.y, y: -v.x }
    }
}

// The direction of a vector that is not (0, 0).
pub fn unit_of(v: Spot) -> Direction
    requires v_in { IsWithin (2 ^ 120) v }
    requires not_zero { IsNotZero v }
    ensures value { result ≡ unit_of v }
    ensures not_zero { IsNotZero result }
{
    Direction::unit(v.x, v.y)
}

// A direction as a vector.
pub fn vector_of(direction: Direction) -> Spot
    ensures value { result ≡ direction }
    ensures within { IsWithin (2 ^ 30) result }
{
    Spot {
        x: i128::from(direction.x()),
        y: i128::from(direction.y()),
    }
}

// The whole number nearest to a / b, for b on either side of 0.
pub fn divided(a: i128, b: i128) -> i128
    requires a_in { nat_abs a ≤ 2 ^ 125 }
    requires b_in { nat_abs b ≤ 2 ^ 125 }
    requires not_zero { 0 < nat_abs b }
    ensures { result ≡ round (quotient a b) }
{
    if b < 0 {
        rounded(-a, -b)
    } else {
        rounded(a, b)
    }
}
