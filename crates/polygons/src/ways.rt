//! Places on the way from one place to another.
ghost use Rattle.std.specs.Prelude.{◌≡◌, ◌≤◌, ◌<◌, ◌^◌, ℤ, nat_abs, pos, ◌+ℤ◌, ◌-ℤ◌};
ghost use Rattle.exact.specs.Fraction.{round, quotient};
ghost use Rattle.polygons.specs.Fills.{share_of_distance, place_after};
ghost use Rattle.polygons.specs.Climbs.{IsPart};

use crate::place::Place;
use exact::{Spot, rounded};

// Heights above lines are in ticks of 1/10^7, and whole ticks if the lines are level or upright.
const TICK: i64 = 10_000_000;

// A part of a way: t / u of it.
#[derive(Clone, Copy, Debug)]
struct Part {
    t: i128,
    u: i128,
}

// The place after t / u of the way from one place to another.
pub fn moved(from: Place, to: Place, t: i128, u: i128) -> Place
    requires { IsPart t u }
    ensures { result ≡ place_after from to t u }
{
    let part = shortened(t as i64, u as i64);
    place_on(from, to, part.t, part.u)
}

// The same, by these numbers.
fn place_on(from: Place, to: Place, t: i128, u: i128) -> Place
    requires { IsPart t u }
    ensures { result ≡ place_after from to t u }
{
    let a = from.spot();
    let b = to.spot();
    Place::new(Spot {
        x: along(a.x, b.x, t, u),
        y: along(a.y, b.y, t, u),
    })
}

// The part t / u by smaller numbers, if both are whole ticks: numbers of 64 bits are divided faster.
fn shortened(t: i64, u: i64) -> Part
    requires { IsPart t u }
    ensures part { IsPart result.t result.u }
    ensures same { (d : ℤ) → share_of_distance d result.t result.u ≡ share_of_distance d t u }
{
    let ticks_t = t.div_euclid(TICK);
    let ticks_u = u.div_euclid(TICK);
    if TICK * ticks_t == t && TICK * ticks_u == u {
        Part {
            t: i128::from(ticks_t),
            u: i128::from(ticks_u),
        }
    } else {
        Part {
            t: i128::from(t),
            u: i128::from(u),
        }
    }
}

// The same of one coordinate.
fn along(a: i128, b: i128, t: i128, u: i128) -> i128
    requires part { IsPart t u }
    requires a_in { nat_abs a ≤ 2 ^ 27 }
    requires b_in { nat_abs b ≤ 2 ^ 27 }
    ensures value { result ≡ a +ℤ share_of_distance (b -ℤ a) t u }
    ensures most { nat_abs result ≤ 2 ^ 27 }
{
    a + divided((b - a) * t, u)
}

// The whole number nearest to a / b, for b on either side of 0.
fn divided(a: i128, b: i128) -> i128
    requires a_in { nat_abs a ≤ 2 ^ 125 }
    requires b_in { nat_abs b ≤ 2 ^ 125 }
    requires not_zero { 0 < nat_abs b }
    ensures { result ≡ round (quotient a b) }
{
    if b < 0 {
        rounded(-a, -b)
    } else {
        rounded(a, b)
    }
}
