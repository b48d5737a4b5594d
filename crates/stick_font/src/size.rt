//! The size of characters, and what it makes of a label's points.
ghost use Rattle.std.specs.Prelude.{◌≡◌, ◌≤◌, ◌^◌, nat_abs};
ghost use Rattle.std.specs.Bool.{OnTrue};
ghost use Rattle.stick_font.specs.Bounds.{IsLabelPoint, IsShortPoint};
ghost use Rattle.stick_font.specs.Labels as points;

use exact::{Spot, rounded};

/// The width and the height of capitals, in grains of 1/16 plotter unit. With a width below 0 a label
/// goes to the left and is mirrored, with a height below 0 it is upside down and goes up.
#[derive(Clone, Copy, Debug, PartialEq, Eq)]
pub struct CharacterSize {
    pub width: i32,
    pub height: i32,
}

impl CharacterSize {
    /// 0.19 by 0.27 centimetres.
    pub const DEFAULT: CharacterSize = CharacterSize {
        width: 1216,
        height: 1728,
    };

    /// How far a point of a label is from its start in grains, before the label is turned, if its
    /// characters have this size: x and y are rounded once each. The point is in twelfths of a
    /// character's width and eighteenths of its height.
    pub fn offset(self, point: Spot) -> Spot
        requires { IsLabelPoint point }
        ensures value { result ≡ points.offset self point }
        ensures x_in { nat_abs result.x ≤ 2 ^ 104 }
        ensures y_in { nat_abs result.y ≤ 2 ^ 104 }
    {
        Spot {
            x: share(point.x, self.width, 12),
            y: share(point.y, self.height, 18),
        }
    }

    /// The same for a point within 2^29 of the start. It is faster.
    #[inline(always)]
    pub fn short_offset(self, point: Spot) -> Spot
        requires { IsShortPoint point }
        ensures value { result ≡ points.offset self point }
        ensures x_in { nat_abs result.x ≤ 2 ^ 60 }
        ensures y_in { nat_abs result.y ≤ 2 ^ 60 }
    {
        Spot {
            x: i128::from(short_share(point.x as i64, self.width, 12)),
            y: i128::from(short_share(point.y as i64, self.height, 18)),
        }
    }
}

// The greatest number of parts of which a share is computed in 64 bits, which is faster.
const MOST_SHORT: i128 = 1 << 29;

// Whether a number of parts is small enough for that.
#[inline]
fn is_short(count: i128) -> bool
    ensures { OnTrue result (nat_abs count ≤ 2 ^ 29) }
{
    -MOST_SHORT <= count && count <= MOST_SHORT
}

// This many parts of a size, of which it has `parts`.
#[inline]
fn share(count: i128, size: i32, parts: u8) -> i128
    requires count_in { nat_abs count ≤ 2 ^ 72 }
    requires parts_in { 1 ≤ parts }
    ensures value { result ≡ points.share count size parts }
    ensures most { nat_abs result ≤ 2 ^ 104 }
{
    if is_short(count) {
        i128::from(short_share(count as i64, size, parts))
    } else {
        long_share(count, size, parts)
    }
}

#[inline]
fn short_share(count: i64, size: i32, parts: u8) -> i64
    requires count_in { nat_abs count ≤ 2 ^ 29 }
    requires parts_in { 1 ≤ parts }
    ensures value { result ≡ points.share count size parts }
    ensures most { nat_abs result ≤ 2 ^ 60 }
{
    let parts = i64::from(parts);
    (2 * (count * i64::from(size)) + parts).div_euclid(2 * parts)
}

fn long_share(count: i128, size: i32, parts: u8) -> i128
    requires count_in { nat_abs count ≤ 2 ^ 72 }
    requires parts_in { 1 ≤ parts }
    ensures value { result ≡ points.share count size parts }
    ensures most { nat_abs result ≤ 2 ^ 104 }
{
    rounded(count * i128::from(size), i128::from(parts))
}
