//! The ends of the chords of an arc.
ghost use Rattle.std.specs.Prelude.{◌≡◌, ◌≤◌, ◌*◌, ◌^◌, nat_abs, ◌+ℤ◌, ◌-ℤ◌, ◌*ℤ◌};
ghost use Rattle.std.specs.Bool.{OnTrue};
ghost use Rattle.plot_arc.specs.Bounds.{IsNear, IsShort};
ghost use Rattle.plot_arc.specs.Arcs.{vector, nearest, chord_point_of};

use crate::sines::{SineCosine, sine_and_cosine};
use exact::{Spot, rounded};

// The vector that leads from the centre to a point.
fn vector(centre: Spot, from: Spot) -> Spot
    requires centre_in { IsNear centre }
    requires from_in { IsNear from }
    ensures value { result ≡ vector centre from }
    ensures x_in { nat_abs result.x ≤ 2 * 10 ^ 24 }
    ensures y_in { nat_abs result.y ≤ 2 * 10 ^ 24 }
{
    Spot {
        x: from.x - centre.x,
        y: from.y - centre.y,
    }
}

// A coordinate times a sine or a cosine, which is in ten-millionths.
fn product(a: i128, p: i64) -> i128
    requires a_in { nat_abs a ≤ 2 * 10 ^ 24 }
    requires p_in { nat_abs p ≤ 10000000 }
    ensures value { result ≡ a *ℤ p }
    ensures most { nat_abs result ≤ 2 * 10 ^ 31 }
{
    a * i128::from(p)
}

// A number of ten-millionths as the nearest whole number, halves upward.
fn nearest(z: i128) -> i128
    requires { nat_abs z ≤ 4 * 10 ^ 31 }
    ensures value { result ≡ nearest z }
    ensures most { nat_abs result ≤ 5 * 10 ^ 31 }
{
    rounded(z, 10_000_000)
}

// The greatest coordinate of a vector that is turned in 64 bits, which is faster.
const MOST_SHORT: i128 = 1 << 37;

// The greatest coordinate of a centre or a point for which their vector has no greater one.
const MOST_SHORT_SPOT: i128 = 1 << 36;

// Whether a coordinate of a vector is small enough for that.
#[inline]
fn is_short(a: i128) -> bool
    ensures { OnTrue result (nat_abs a ≤ 2 ^ 37) }
{
    -MOST_SHORT <= a && a <= MOST_SHORT
}

// A vector that is turned by an angle.
#[inline]
fn turned(v: Spot, by: SineCosine) -> Spot
    requires x_in { nat_abs v.x ≤ 2 * 10 ^ 24 }
    requires y_in { nat_abs v.y ≤ 2 * 10 ^ 24 }
    requires sine_in { nat_abs by.sine ≤ 10000000 }
    requires cosine_in { nat_abs by.cosine ≤ 10000000 }
    ensures x { result.x ≡ nearest (v.x *ℤ by.cosine -ℤ v.y *ℤ by.sine) }
    ensures y { result.y ≡ nearest (v.x *ℤ by.sine +ℤ v.y *ℤ by.cosine) }
    ensures x_most { nat_abs result.x ≤ 5 * 10 ^ 31 }
    ensures y_most { nat_abs result.y ≤ 5 * 10 ^ 31 }
{
    if is_short(v.x) && is_short(v.y) {
        short_turned(v.x as i64, v.y as i64, by)
    } else {
        long_turned(v, by)
    }
}

fn long_turned(v: Spot, by: SineCosine) -> Spot
    requires x_in { nat_abs v.x ≤ 2 * 10 ^ 24 }
    requires y_in { nat_abs v.y ≤ 2 * 10 ^ 24 }
    requires sine_in { nat_abs by.sine ≤ 10000000 }
    requires cosine_in { nat_abs by.cosine ≤ 10000000 }
    ensures x { result.x ≡ nearest (v.x *ℤ by.cosine -ℤ v.y *ℤ by.sine) }
    ensures y { result.y ≡ nearest (v.x *ℤ by.sine +ℤ v.y *ℤ by.cosine) }
    ensures x_most { nat_abs result.x ≤ 5 * 10 ^ 31 }
    ensures y_most { nat_abs result.y ≤ 5 * 10 ^ 31 }
{
    Spot {
        x: nearest(product(v.x, by.cosine) - product(v.y, by.sine)),
        y: nearest(product(v.x, by.sine) + product(v.y, by.cosine)),
    }
}

#[inline]
fn short_turned(x: i64, y: i64, by: SineCosine) -> Spot
    requires x_in { nat_abs x ≤ 2 ^ 37 }
    requires y_in { nat_abs y ≤ 2 ^ 37 }
    requires sine_in { nat_abs by.sine ≤ 10000000 }
    requires cosine_in { nat_abs by.cosine ≤ 10000000 }
    ensures x { result.x ≡ nearest (x *ℤ by.cosine -ℤ y *ℤ by.sine) }
    ensures y { result.y ≡ nearest (x *ℤ by.sine +ℤ y *ℤ by.cosine) }
    ensures x_most { nat_abs result.x ≤ 2 ^ 39 }
    ensures y_most { nat_abs result.y ≤ 2 ^ 39 }
{
    Spot {
        x: short_nearest(short_product(x, by.cosine) - short_product(y, by.sine)),
        y: short_nearest(short_product(x, by.sine) + short_product(y, by.cosine)),
    }
}

#[inline]
fn short_product(a: i64, p: i64) -> i64
    requires a_in { nat_abs a ≤ 2 ^ 37 }
    requires p_in { nat_abs p ≤ 10000000 }
    ensures value { result ≡ a *ℤ p }
    ensures most { nat_abs result ≤ 2 ^ 37 * 10000000 }
{
    a * p
}

#[inline]
fn short_nearest(z: i64) -> i128
    requires { nat_abs z ≤ 2 ^ 38 * 10000000 }
    ensures value { result ≡ nearest z }
    ensures most { nat_abs result ≤ 2 ^ 39 }
{
    i128::from((2 * z + 10_000_000).div_euclid(20_000_000))
}

/// Whether `short_chord_point` takes this centre or point: whether it is within 2^36 of 0.
#[inline]
pub fn is_short_spot(spot: Spot) -> bool
    ensures { OnTrue result (IsShort spot) }
{
    is_within_short(spot.x) && is_within_short(spot.y)
}

#[inline]
fn is_within_short(a: i128) -> bool
    ensures { OnTrue result (nat_abs a ≤ 2 ^ 36) }
{
    -MOST_SHORT_SPOT <= a && a <= MOST_SHORT_SPOT
}

/// The same as `chord_point`, for a centre and a point within 2^36 of 0. It is faster.
#[inline(always)]
pub fn short_chord_point(centre: Spot, from: Spot, thousandths: i64) -> Spot
    requires centre_in { IsShort centre }
    requires from_in { IsShort from }
    ensures value { result ≡ chord_point_of centre from thousandths }
    ensures x_in { nat_abs result.x ≤ 2 ^ 40 }
    ensures y_in { nat_abs result.y ≤ 2 ^ 40 }
{
    let x = centre.x as i64;
    let y = centre.y as i64;
    let way = short_turned(
        from.x as i64 - x,
        from.y as i64 - y,
        sine_and_cosine(thousandths),
    );
    Spot {
        x: i128::from(x + way.x as i64),
        y: i128::from(y + way.y as i64),
    }
}

/// The point at which the point `from` arrives if it is turned about `centre` by an angle in
/// thousandths of a degree, counterclockwise if the angle is above 0.
///
/// All coordinates are in millionths of the current unit, and those of `centre` and `from` lie
/// within 10^24 of 0. The sine is [`sine`](crate::sine), the cosine is the sine of 90 degrees more,
/// and each coordinate is rounded once, halves upward.
#[inline(always)]
pub fn chord_point(centre: Spot, from: Spot, thousandths: i64) -> Spot
    requires centre_in { IsNear centre }
    requires from_in { IsNear from }
    ensures { result ≡ chord_point_of centre from thousandths }
{
    let way = turned(vector(centre, from), sine_and_cosine(thousandths));
    Spot {
        x: centre.x + way.x,
        y: centre.y + way.y,
    }
}
