//! An axis of a frame, as a line.
ghost use Rattle.std.specs.Prelude.{◌≡◌, ◌≤◌, ◌^◌, pos, nat_abs, ◌+ℤ◌, ◌*ℤ◌, ◌<ℤ◌, if◌then◌else◌};
ghost use Rattle.std.specs.Bool.{OnTrue};
ghost use Rattle.exact.specs.Fraction.{round, quotient};
ghost use Rattle.plot_frame.specs.Bounds.{IsLine, IsNear, IsUnscaled};
ghost use Rattle.plot_frame.specs.Line.{place, back};

use exact::rounded;

// The `under` of an axis on which coordinates are plotter units.
const UNSCALED_UNDER: i128 = 1_000_000;

// The `slope` of such an axis.
const UNSCALED_SLOPE: i128 = 16;

// The greatest offset of such an axis on which places are computed in 64 bits.
const MOST_SHORT: i128 = 1 << 55;

/// One axis of a frame: a coordinate u, in millionths of the current unit, lies at
/// (`slope` * u + `offset`) / `under` grains of 1/16 plotter unit from the page's edge.
#[derive(Clone, Copy, Debug)]
pub struct Axis {
    pub slope: i128,
    pub offset: i128,
    pub under: i128,
}

impl Axis {
    /// The place of a coordinate, in grains.
    #[inline(always)]
    pub fn place(&self, u: i128) -> i128
        requires line { IsLine self.now }
        requires near { nat_abs (self.now.slope *ℤ u) ≤ 2 ^ 118 }
        ensures value { result ≡ place self.now u }
        ensures bound { nat_abs result ≤ 2 ^ 120 }
    {
        rounded_place(self.slope * u + self.offset, self.under)
    }

    /// Whether coordinates are plotter units, as in most plots, so that `unscaled_place` takes them.
    #[inline]
    pub fn is_unscaled(&self) -> bool
        ensures { OnTrue result (IsUnscaled self.now) }
    {
        self.under == UNSCALED_UNDER && self.slope == UNSCALED_SLOPE && is_short(self.offset)
    }

    /// The same as `place`, if coordinates are plotter units. It is faster.
    #[inline(always)]
    pub fn unscaled_place(&self, u: i128) -> i128
        requires unscaled { IsUnscaled self.now }
        requires short { nat_abs u ≤ 2 ^ 57 }
        ensures value { result ≡ place self.now u }
        ensures bound { nat_abs result ≤ 2 ^ 120 }
    {
        i128::from(unscaled_place(self.offset as i64, u as i64))
    }

    /// The coordinate of a place, in millionths of the current unit.
    pub fn coordinate(&self, q: i128) -> i128
        requires line { IsLine self.now }
        requires q_in { nat_abs q ≤ 2 ^ 28 }
        ensures value { result ≡ back self.now q }
        ensures near { IsNear self.now result }
    {
        let over = q * self.under - self.offset;
        if self.slope < 0 {
            rounded(-over, -self.slope)
        } else {
            rounded(over, self.slope)
        }
    }

    /// The coordinate that a move from `u` ends at: `n` further on, or `n` itself.
    pub fn moved(&self, u: i128, n: i64, relative: bool) -> i128
        requires small { nat_abs n ≤ 2 ^ 55 }
        requires line { IsLine self.now }
        requires near { IsNear self.now u }
        ensures value { result ≡ (if relative then u +ℤ n else n) }
        ensures near { nat_abs (self.now.slope *ℤ result) ≤ 2 ^ 118 }
    {
        if relative {
            u + i128::from(n)
        } else {
            i128::from(n)
        }
    }
}

#[inline]
fn is_short(a: i128) -> bool
    ensures { OnTrue result (nat_abs a ≤ 2 ^ 55) }
{
    -MOST_SHORT <= a && a <= MOST_SHORT
}

// The place of a coordinate in plotter units, in 64 bits.
#[inline(always)]
fn unscaled_place(offset: i64, u: i64) -> i64
    requires offset_in { nat_abs offset ≤ 2 ^ 55 }
    requires u_in { nat_abs u ≤ 2 ^ 57 }
    ensures { result ≡ round (quotient (pos 16 *ℤ u +ℤ offset) (pos 1000000)) }
{
    (2 * (16 * u + offset) + 1_000_000).div_euclid(2_000_000)
}

// The place nearest to over / under. A division by a number that the compiler knows is faster, and
// most plots have no other.
#[inline]
fn rounded_place(over: i128, under: i128) -> i128
    requires over_in { nat_abs over ≤ 2 ^ 125 }
    requires under_in { nat_abs under ≤ 2 ^ 125 }
    requires under_above { pos 0 <ℤ under }
    ensures { result ≡ round (quotient over under) }
{
    if under == UNSCALED_UNDER {
        rounded(over, UNSCALED_UNDER)
    } else {
        rounded(over, under)
    }
}
