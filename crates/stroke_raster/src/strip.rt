//! The strip of a row outside which no pixel is near a stroke's line.
ghost use Rattle.std.specs.Prelude.{◌≡◌, ℕ, ◌+◌, ◌-◌, ◌*◌, ◌/◌, ◌<◌, ◌≤◌, ◌^◌, pos, nat_abs, ◌-ℤ◌, ◌<ℤ◌, neg_ℤ, int_le};
ghost use Rattle.std.specs.Prelude.{cond, false};
ghost use Rattle.stroke_raster.specs.Bounds.{Within};
ghost use Rattle.stroke_raster.specs.TraceNumbers.{IsInverse};
ghost use Rattle.stroke_raster.specs.Traces.{is_met};

use crate::pixel::cross_product;
use crate::slope::Inverse;
use crate::trace::Trace;
use crate::vector::Vector;

/// The numbers from `low` up to, but not including, `end`.
#[derive(Clone, Copy, Debug)]
pub struct Span {
    pub low: u32,
    pub end: u32,
}

/// The columns outside which pixels are too far from the endless line along a stroke that is not far, among
/// `length` columns from the one to whose pixel `start` leads.
#[inline(always)]
pub fn strip(trace: &Trace<'_>, start: Vector, length: u32) -> Span
    requires near { trace.now.is_far ≡ false }
    requires start_in { Within (2 ^ 38) start }
    ensures order { result.low ≤ result.end }
    ensures high { result.end ≤ length }
    ensures before { (i : ℕ) → i < result.low → is_met trace.now start i ≡ false }
    ensures after { (i : ℕ) → result.end ≤ i → i < length → is_met trace.now start i ≡ false }
{
    let slope = trace.slope;
    let beside = turned(2 * cross_product(trace.course, start), trace.course.y);
    within(beside, slope.most, slope.step, slope.inverse, length)
}

/// The number, negated if `sign` is below 0.
#[inline(always)]
pub fn turned(z: i64, sign: i64) -> i64
    requires { nat_abs z ≤ 2 ^ 62 }
    ensures value { result ≡ cond (int_le (pos 0) sign) z (neg_ℤ z) }
    ensures small { nat_abs result ≡ nat_abs z }
{
    if sign < 0 { -z } else { z }
}

/// The columns i below `length` for which k - step * i is within `most` of 0, and perhaps one more at
/// each end.
#[inline(always)]
pub fn within(k: i64, most: i64, step: u64, inverse: Inverse, length: u32) -> Span
    requires k_in { nat_abs k ≤ 2 ^ 63 - 2 ^ 55 }
    requires most_in { nat_abs most ≤ 2 ^ 54 }
    requires inverse_is { IsInverse step inverse }
    ensures order { result.low ≤ result.end }
    ensures high { result.end ≤ length }
    ensures before { (i : ℕ) → i < result.low → most <ℤ (k -ℤ pos (i * step)) }
    ensures after { (i : ℕ) → result.end ≤ i → i < length → most <ℤ (pos (i * step) -ℤ k) }
{
    let low = k - most;
    let high = k + most;
    if high < 0 {
        return Span { low: 0, end: 0 };
    }
    if step == 0 {
        return Span {
            low: if low <= 0 { 0 } else { length },
            end: length,
        };
    }
    let last = high_half(high.unsigned_abs(), inverse.over);
    let end = (last + 1).min(u64::from(length)) as u32;
    if low <= 0 {
        return Span { low: 0, end };
    }
    let first = high_half(low.unsigned_abs() - 1, inverse.under) + 1;
    Span {
        low: first.min(u64::from(end)) as u32,
        end,
    }
}

// The product of two numbers, divided by 2^64 and rounded down.
#[inline(always)]
fn high_half(a: u64, b: u64) -> u64
    requires { a ≤ 2 ^ 63 }
    ensures value { result ≡ a * b / 2 ^ 64 }
    ensures small { result ≤ 2 ^ 63 }
{
    (u128::from(a) * u128::from(b) >> 64) as u64
}
