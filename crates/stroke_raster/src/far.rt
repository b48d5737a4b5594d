//! Far strokes: those that are so long that the products of their tests need more than 64 bits.
ghost use Rattle.std.specs.Prelude.{◌≡◌, ℕ, ◌<◌, ◌≤◌, ◌^◌, ◌*◌, pos, nat_abs, ◌*ℤ◌, cond, int_le, neg_ℤ, false};
ghost use Rattle.stroke_raster.specs.Bounds.{Within};
ghost use Rattle.stroke_raster.specs.Gap.{dot, cross};
ghost use Rattle.stroke_raster.specs.Traces.{is_met, is_near};

use crate::pixel::{is_short, way_between};
use crate::strip::{Span, within};
use crate::trace::Trace;
use crate::vector::Vector;

// The longest side of a course that is not far, in grains: 3.2 m.
const NEAR: u64 = 1 << 21;

// No square of a number that is as great as this is within the limit of a trace.
const GREAT: u128 = 1 << 63;

// If twice the cross product of a row's first pixel is greater than this, no pixel of the row is near the line.
const GREATEST: u128 = (1 << 63) - (1 << 55);

/// Whether a course, in grains, is that of a far stroke.
#[inline(always)]
pub fn is_far(course: Vector) -> bool
    requires { Within (2 ^ 28) course }
    ensures { result ≡ false → Within (2 ^ 21) course }
{
    course.x.unsigned_abs().max(course.y.unsigned_abs()) > NEAR
}

/// Whether the place to which `w` leads from the stroke's first end is within half of the drawn
/// width of the stroke, which may be far.
#[inline(always)]
pub fn far_meets(trace: &Trace<'_>, w: Vector) -> bool
    requires { Within (2 ^ 39) w }
    ensures { result ≡ is_near trace.now w }
{
    if wide_dot(trace.course, w) <= 0 {
        return is_short(w, trace.reach);
    }
    let past = way_between(trace.scaled_course, w);
    if 0 <= wide_dot(trace.course, past) {
        return is_short(past, trace.reach);
    }
    is_far_beside(trace.course, w, trace.limit)
}

// The dot product of a course and a way.
#[inline(always)]
fn wide_dot(v: Vector, w: Vector) -> i128
    requires v_in { Within (2 ^ 28) v }
    requires w_in { Within (2 ^ 40) w }
    ensures value { result ≡ dot v w }
    ensures small { nat_abs result ≤ 2 ^ 69 }
{
    i128::from(v.x) * i128::from(w.x) + i128::from(v.y) * i128::from(w.y)
}

/// The cross product of a course and a way.
#[inline(always)]
pub fn wide_cross(v: Vector, w: Vector) -> i128
    requires v_in { Within (2 ^ 28) v }
    requires w_in { Within (2 ^ 40) w }
    ensures value { result ≡ cross v w }
    ensures small { nat_abs result ≤ 2 ^ 69 }
{
    i128::from(v.x) * i128::from(w.y) - i128::from(v.y) * i128::from(w.x)
}

// Whether the cross product of a course and a way is at most half of the root of `limit`.
#[inline(always)]
fn is_far_beside(v: Vector, w: Vector, limit: i128) -> bool
    requires v_in { Within (2 ^ 28) v }
    requires w_in { Within (2 ^ 40) w }
    requires limit_in { nat_abs limit ≤ 2 ^ 105 }
    ensures { result ≡ int_le (pos 4 *ℤ (cross v w *ℤ cross v w)) limit }
{
    let beside = 2 * wide_cross(v, w);
    beside.unsigned_abs() < GREAT && beside * beside <= limit
}

/// The columns of `strip::strip`, of a stroke that may be far.
#[inline(always)]
pub fn far_strip(trace: &Trace<'_>, start: Vector, length: u32) -> Span
    requires start_in { Within (2 ^ 38) start }
    requires length_in { length ≤ 2 ^ 20 }
    ensures order { result.low ≤ result.end }
    ensures high { result.end ≤ length }
    ensures before { (i : ℕ) → i < result.low → is_met trace.now start i ≡ false }
    ensures after { (i : ℕ) → result.end ≤ i → i < length → is_met trace.now start i ≡ false }
{
    let slope = trace.slope;
    let beside = wide_turned(2 * wide_cross(trace.course, start), trace.course.y);
    if beside.unsigned_abs() > GREATEST {
        return Span { low: 0, end: 0 };
    }
    within(beside as i64, slope.most, slope.step, slope.inverse, length)
}

/// The number, negated if `sign` is below 0.
#[inline(always)]
pub fn wide_turned(z: i128, sign: i64) -> i128
    requires { nat_abs z ≤ 2 ^ 70 }
    ensures value { result ≡ cond (int_le (pos 0) sign) z (neg_ℤ z) }
    ensures small { nat_abs result ≡ nat_abs z }
{
    if sign < 0 { -z } else { z }
}
