//! Directions.
ghost use Rattle.std.specs.Prelude.{◌≡◌, ◌+◌, ◌*◌, ◌≤◌, ◌<◌, ◌^◌, ◌≤ℤ◌, max, pos, nat_abs};
ghost use Rattle.directions.specs.Bounds.{IsWithin};
ghost use Rattle.directions.specs.Directions.{unit, vector_turned, swung, with_sign_of};
ghost use Rattle.directions.specs.Directions.{surplus_of, shortened, part_in, size_in, rounded_part};

use crate::turn::Turn;
use exact::{Spot, root, rounded};
use std::marker::Model;

// The length of each direction, 2^30.
const ONE: i32 = 1_073_741_824;

/// A direction: a vector in parts of 2^30, each coordinate within 2^30 of 0.
#[derive(Clone, Copy, Debug, PartialEq, Eq)]
pub struct Direction {
    x: i32,
    y: i32,
}

impl Model for Direction {
    ghost use Rattle.std.specs.Prelude.{◌≤◌, ◌^◌, nat_abs};
    ghost use Rattle.exact.specs.declared.spot.Spot.{Spot};
    ghost use Rattle.directions.specs.Bounds.{IsWithin};

    ghost Value = { Spot };

    ghost view = { λ d. record { x = d.x; y = d.y } };

    ghost invariant = { λ d. IsWithin (2 ^ 30) (record { x = d.x; y = d.y }) };

    ghost inverse = { λ v. record { x = v.x; y = v.y } };
}

impl Direction {
    /// To the right.
    pub const RIGHT: Direction = Direction { x: ONE, y: 0 };

    /// The direction of the vector (u, v), which is not (0, 0). Numbers of more than 31 binary digits
    /// are shortened to that first, both by as many digits.
    pub fn unit(u: i128, v: i128) -> Direction
        requires u_in { nat_abs u ≤ 2 ^ 125 }
        requires v_in { nat_abs v ≤ 2 ^ 125 }
        requires not_both { 0 < nat_abs u + nat_abs v }
        ensures { result ≡ unit u v }
    {
        if v == 0 {
            return Direction {
                x: with_sign_of(u, ONE),
                y: 0,
            };
        }
        if u == 0 {
            return Direction {
                x: 0,
                y: with_sign_of(v, ONE),
            };
        }
        Direction::between(u, v)
    }

    // The same for any vector, with divisions and roots, which directions along an axis do not need.
    fn between(u: i128, v: i128) -> Direction
        requires u_in { nat_abs u ≤ 2 ^ 125 }
        requires v_in { nat_abs v ≤ 2 ^ 125 }
        requires not_both { 0 < nat_abs u + nat_abs v }
        ensures { result ≡ unit u v }
    {
        let digits = surplus(u, v);
        let u = shortened(u, digits);
        let v = shortened(v, digits);
        let across = u.unsigned_abs();
        let up = v.unsigned_abs();
        let square = across * across + up * up;
        Direction {
            x: part(u, square),
            y: part(v, square),
        }
    }

    /// The direction after a turn.
    pub fn turned(self, turn: Turn) -> Direction
        ensures { result ≡ vector_turned turn self }
    {
        match turn {
            Turn::None => self,
            Turn::Quarter => Direction {
                x: -self.y,
                y: self.x,
            },
            Turn::Half => Direction {
                x: -self.x,
                y: -self.y,
            },
            Turn::ThreeQuarters => Direction {
                x: self.y,
                y: -self.x,
            },
        }
    }

    /// An offset that follows this direction: what pointed to the right points in the direction. Each
    /// coordinate is rounded once.
    #[inline]
    pub fn swung(self, offset: Spot) -> Spot
        requires { IsWithin (2 ^ 93) offset }
        ensures value { result ≡ swung self offset }
        ensures within { IsWithin (2 ^ 95) result }
    {
        if self.x == ONE && self.y == 0 {
            return offset;
        }
        if self.x == 0 && self.y == ONE {
            return Spot {
                x: -offset.y,
                y: offset.x,
            };
        }
        self.swung_between(offset)
    }

    // The same for any direction, with products, which the two most usual directions do not need.
    fn swung_between(self, offset: Spot) -> Spot
        requires { IsWithin (2 ^ 93) offset }
        ensures value { result ≡ swung self offset }
        ensures within { IsWithin (2 ^ 95) result }
    {
        let x = i128::from(self.x);
        let y = i128::from(self.y);
        Spot {
            x: rounded_part(offset.x * x - offset.y * y),
            y: rounded_part(offset.x * y + offset.y * x),
        }
    }

    /// How far it points to the right, in parts of 2^30.
    pub fn x(self) -> i32
        ensures value { result ≡ self.x }
        ensures most { nat_abs result ≤ 2 ^ 30 }
    {
        self.x
    }

    /// How far it points up, in parts of 2^30.
    pub fn y(self) -> i32
        ensures value { result ≡ self.y }
        ensures most { nat_abs result ≤ 2 ^ 30 }
    {
        self.y
    }
}

// How many binary digits the larger of two numbers has more than 31.
fn surplus(u: i128, v: i128) -> u32
    requires u_in { nat_abs u ≤ 2 ^ 125 }
    requires v_in { nat_abs v ≤ 2 ^ 125 }
    requires not_both { 0 < nat_abs u + nat_abs v }
    ensures value { result ≡ surplus_of u v }
    ensures u_below { nat_abs u < 2 ^ 31 * 2 ^ result }
    ensures v_below { nat_abs v < 2 ^ 31 * 2 ^ result }
    ensures at_least { 2 ^ result ≤ max (nat_abs u) (nat_abs v) }
    ensures most { result ≤ 95 }
{
    let larger = u.unsigned_abs().max(v.unsigned_abs());
    match larger.checked_ilog2() {
        Some(top) => top.saturating_sub(30),
        None => 0,
    }
}

// The number without its last binary digits, rounded.
fn shortened(a: i128, digits: u32) -> i128
    requires a_in { nat_abs a ≤ 2 ^ 125 }
    requires digits_in { digits ≤ 95 }
    requires below { nat_abs a < 2 ^ 31 * 2 ^ digits }
    ensures value { result ≡ shortened digits a }
    ensures most { nat_abs result ≤ 2 ^ 31 }
    ensures above { 2 ^ digits ≤ nat_abs a → 0 < nat_abs result }
{
    rounded(a, 1 << digits)
}

// A coordinate of a vector's direction, by the square of the vector's length.
fn part(a: i128, square: u128) -> i32
    requires a_in { nat_abs a ≤ 2 ^ 31 }
    requires square_in { nat_abs a * nat_abs a ≤ square }
    requires above { 0 < square }
    ensures value { result ≡ part_in square a }
    ensures most { nat_abs result ≤ 2 ^ 30 }
{
    with_sign_of(a, size(a.unsigned_abs(), square))
}

// A size of at least 0, with the sign of a number.
fn with_sign_of(a: i128, size: i32) -> i32
    requires { pos 0 ≤ℤ size }
    ensures value { result ≡ with_sign_of a (nat_abs size) }
    ensures same { nat_abs result ≡ nat_abs size }
{
    if a < 0 { -size } else { size }
}

// Its size, 0 to 2^30.
fn size(a: u128, square: u128) -> i32
    requires a_in { a ≤ 2 ^ 31 }
    requires square_in { a * a ≤ square }
    requires above { 0 < square }
    ensures value { result ≡ pos (size_in square a) }
    ensures most { size_in square a ≤ 2 ^ 30 }
{
    let root = root(4_611_686_018_427_387_904 * (a * a) / square);
    ((root + 1) / 2) as i32
}

// The whole number nearest to a / 2^30.
fn rounded_part(a: i128) -> i128
    requires { nat_abs a ≤ 2 ^ 124 }
    ensures value { result ≡ rounded_part a }
    ensures most { nat_abs result ≤ 2 ^ 95 }
{
    rounded(a, i128::from(ONE))
}
