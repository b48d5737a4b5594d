//! The run of pixels that a stroke covers in a row.
ghost use Rattle.std.specs.Prelude.{◌≡◌, ℕ, ◌+◌, ◌-◌, ◌<◌, ◌≤◌, ◌^◌, true, false, cond, min};
ghost use Rattle.stroke_raster.specs.Bounds.{Within};
ghost use Rattle.stroke_raster.specs.Covers.{covers};
ghost use Rattle.stroke_raster.specs.Boxes.{in_box};
ghost use Rattle.plot_page.specs.Resolutions.{columns_of, rows_of};
ghost use Rattle.stroke_raster.specs.Traces.{rightward, is_met};

use crate::far::{far_meets, far_strip};
use crate::nearness::{meets, meets_evenly};
use crate::pixel::{centre_of, way_between};
use crate::strip::{Span, strip};
use crate::trace::Trace;
use crate::vector::Vector;
use plot_page::Page;

// A strip of at most this many columns is scanned from both ends.
const FEW: u32 = 16;

/// The run of pixels that the stroke covers, among `length` pixels of a row of its box from column
/// `from` on.
#[inline(always)]
pub fn run(trace: &Trace<'_>, page: &Page, row: u32, from: u32, length: u32) -> Span
    requires row_in { row < rows_of page.now trace.now.dots }
    requires columns_in { from + length ≤ columns_of page.now trace.now.dots }
    requires boxed { (i : ℕ) → i < length → in_box trace.now.stroke.now page.now trace.now.dots row (from + i) ≡ true }
    ensures order { result.low ≤ result.end }
    ensures high { result.end ≤ length }
    ensures before { (i : ℕ) → i < result.low →
        covers trace.now.stroke.now page.now trace.now.dots row (from + i) ≡ false }
    ensures inside { (i : ℕ) → result.low ≤ i → i < result.end →
        covers trace.now.stroke.now page.now trace.now.dots row (from + i) ≡ true }
    ensures after { (i : ℕ) → result.end ≤ i → i < length →
        covers trace.now.stroke.now page.now trace.now.dots row (from + i) ≡ false }
{
    let start = way_between(trace.first, centre_of(page, trace.dots, row, from));
    run_from(trace, start, length)
}

// The run among `length` pixels from the one to which `start` leads. The strip is the run, if both of
// its ends are met. In a small box the tests of all pixels cost less than the strip.
#[inline(always)]
fn run_from(trace: &Trace<'_>, start: Vector, length: u32) -> Span
    requires start_in { Within (2 ^ 38) start }
    requires length_in { length ≤ 2 ^ 20 }
    ensures order { result.low ≤ result.end }
    ensures high { result.end ≤ length }
    ensures before { (i : ℕ) → i < result.low → is_met trace.now start i ≡ false }
    ensures inside { (i : ℕ) → result.low ≤ i → i < result.end → is_met trace.now start i ≡ true }
    ensures after { (i : ℕ) → result.end ≤ i → i < length → is_met trace.now start i ≡ false }
{
    if trace.is_small {
        return scanned(trace, start, length);
    }
    if trace.is_far {
        return far_run(trace, start, length);
    }
    let span = strip(trace, start, length);
    if meets_ends(trace, start, span) {
        return span;
    }
    near_run(trace, start, span)
}

// The same run of a far stroke.
#[inline(never)]
fn far_run(trace: &Trace<'_>, start: Vector, length: u32) -> Span
    requires start_in { Within (2 ^ 38) start }
    requires length_in { length ≤ 2 ^ 20 }
    ensures order { result.low ≤ result.end }
    ensures high { result.end ≤ length }
    ensures before { (i : ℕ) → i < result.low → is_met trace.now start i ≡ false }
    ensures inside { (i : ℕ) → result.low ≤ i → i < result.end → is_met trace.now start i ≡ true }
    ensures after { (i : ℕ) → result.end ≤ i → i < length → is_met trace.now start i ≡ false }
{
    let span = far_strip(trace, start, length);
    searched(trace, start, span, true)
}

// The run in a span, of a stroke that is not far.
fn near_run(trace: &Trace<'_>, start: Vector, span: Span) -> Span
    requires near { trace.now.is_far ≡ false }
    requires start_in { Within (2 ^ 38) start }
    requires order { span.low ≤ span.end }
    requires end_in { span.end ≤ 2 ^ 20 }
    ensures low { span.low ≤ result.low }
    ensures order { result.low ≤ result.end }
    ensures high { result.end ≤ span.end }
    ensures before { (i : ℕ) → span.low ≤ i → i < result.low → is_met trace.now start i ≡ false }
    ensures inside { (i : ℕ) → result.low ≤ i → i < result.end → is_met trace.now start i ≡ true }
    ensures after { (i : ℕ) → result.end ≤ i → i < span.end → is_met trace.now start i ≡ false }
{
    searched(trace, start, span, false)
}

// Whether the stroke is near the first and the last pixel of a span.
#[inline(always)]
fn meets_ends(trace: &Trace<'_>, start: Vector, span: Span) -> bool
    requires near { trace.now.is_far ≡ false }
    requires start_in { Within (2 ^ 38) start }
    requires order { span.low ≤ span.end }
    requires end_in { span.end ≤ 2 ^ 20 }
    ensures some { result ≡ true → span.low < span.end }
    ensures first { result ≡ true → is_met trace.now start span.low ≡ true }
    ensures last { result ≡ true → is_met trace.now start (span.end - 1) ≡ true }
{
    span.low < span.end
        && meets_pixel(trace, start, span.low, false)
        && meets_pixel(trace, start, span.end - 1, false)
}

// The way to the pixel i columns to the right of the one to which `start` leads.
#[inline(always)]
pub fn pixel_at(start: Vector, i: u32) -> Vector
    requires start_in { Within (2 ^ 38) start }
    requires i_in { i ≤ 2 ^ 20 }
    ensures value { result ≡ rightward start i }
    ensures small { Within (2 ^ 39) result }
{
    Vector {
        x: start.x + 16256 * i64::from(i),
        y: start.y,
    }
}

// Whether the stroke is near the pixel i columns to the right. The way for far strokes is for all strokes.
#[inline(always)]
fn meets_pixel(trace: &Trace<'_>, start: Vector, i: u32, is_far: bool) -> bool
    requires near { is_far ≡ false → trace.now.is_far ≡ false }
    requires start_in { Within (2 ^ 38) start }
    requires i_in { i ≤ 2 ^ 20 }
    ensures { result ≡ is_met trace.now start i }
{
    let w = pixel_at(start, i);
    if is_far {
        far_meets(trace, w)
    } else {
        meets(trace, w)
    }
}

// The run, by tests of all the pixels.
#[inline(always)]
fn scanned(trace: &Trace<'_>, start: Vector, length: u32) -> Span
    requires near { trace.now.is_far ≡ false }
    requires start_in { Within (2 ^ 38) start }
    requires length_in { length ≤ 2 ^ 20 }
    ensures order { result.low ≤ result.end }
    ensures high { result.end ≤ length }
    ensures before { (i : ℕ) → i < result.low → is_met trace.now start i ≡ false }
    ensures inside { (i : ℕ) → result.low ≤ i → i < result.end → is_met trace.now start i ≡ true }
    ensures after { (i : ℕ) → result.end ≤ i → i < length → is_met trace.now start i ≡ false }
{
    let mut low = length;
    let mut end = 0;
    for i in 0..length {
        let is_met = meets_evenly(trace, pixel_at(start, i));
        low = first_met(low, i, is_met);
        end = past_met(end, i, is_met);
    }
    Span {
        low: low.min(end),
        end,
    }
}

// The lesser of two columns, if the second is met.
#[inline(always)]
fn first_met(low: u32, i: u32, is_met: bool) -> u32
    ensures { result ≡ cond is_met (min low i) low }
{
    if is_met { low.min(i) } else { low }
}

// The column after `i`, if that is met.
#[inline(always)]
fn past_met(end: u32, i: u32, is_met: bool) -> u32
    requires { i < 2 ^ 31 }
    ensures { result ≡ cond is_met (i + 1) end }
{
    if is_met { i + 1 } else { end }
}

// The run in a span, by tests from the span's ends or, in a long one, from its middle.
#[inline(always)]
fn searched(trace: &Trace<'_>, start: Vector, span: Span, is_far: bool) -> Span
    requires near { is_far ≡ false → trace.now.is_far ≡ false }
    requires start_in { Within (2 ^ 38) start }
    requires order { span.low ≤ span.end }
    requires end_in { span.end ≤ 2 ^ 20 }
    ensures low { span.low ≤ result.low }
    ensures order { result.low ≤ result.end }
    ensures high { result.end ≤ span.end }
    ensures before { (i : ℕ) → span.low ≤ i → i < result.low → is_met trace.now start i ≡ false }
    ensures inside { (i : ℕ) → result.low ≤ i → i < result.end → is_met trace.now start i ≡ true }
    ensures after { (i : ℕ) → result.end ≤ i → i < span.end → is_met trace.now start i ≡ false }
{
    let middle = span.low + (span.end - span.low) / 2;
    if span.end - span.low > FEW && meets_pixel(trace, start, middle, is_far) {
        let left = Span {
            low: span.low,
            end: middle,
        };
        let right = Span {
            low: middle,
            end: span.end,
        };
        return Span {
            low: start_of_run(trace, start, left, is_far),
            end: end_of_run(trace, start, right, is_far),
        };
    }
    let low = first_covered(trace, start, span, is_far);
    let end = end_of_covered(trace, start, Span { low, end: span.end }, is_far);
    Span { low, end }
}

// The first column of a run that holds the span's end and begins in the span. The search steps from
// the span's first column, since the run usually begins near it: each step is twice as long as the
// one before, and at most half of what is left.
#[inline(always)]
fn start_of_run(trace: &Trace<'_>, start: Vector, span: Span, is_far: bool) -> u32
    requires near { is_far ≡ false → trace.now.is_far ≡ false }
    requires start_in { Within (2 ^ 38) start }
    requires order { span.low ≤ span.end }
    requires end_in { span.end ≤ 2 ^ 20 }
    requires held { is_met trace.now start span.end ≡ true }
    ensures low { span.low ≤ result }
    ensures high { result ≤ span.end }
    ensures before { (i : ℕ) → span.low ≤ i → i < result → is_met trace.now start i ≡ false }
    ensures at { is_met trace.now start result ≡ true }
{
    let mut low = span.low;
    let mut end = span.end;
    let mut step = 0u32;
    'parts: while low < end {
        let at = low + ((end - low) / 2).min(step);
        if meets_pixel(trace, start, at, is_far) {
            end = at;
        } else {
            low = at + 1;
            step = step << 1 | 1;
        }
    }
    end
}

// The column after the last one of a run that holds the span's first column and ends in the span,
// searched in the same way from the span's end.
#[inline(always)]
fn end_of_run(trace: &Trace<'_>, start: Vector, span: Span, is_far: bool) -> u32
    requires near { is_far ≡ false → trace.now.is_far ≡ false }
    requires start_in { Within (2 ^ 38) start }
    requires order { span.low < span.end }
    requires end_in { span.end ≤ 2 ^ 20 }
    requires held { is_met trace.now start span.low ≡ true }
    ensures low { span.low < result }
    ensures high { result ≤ span.end }
    ensures after { (i : ℕ) → result ≤ i → i < span.end → is_met trace.now start i ≡ false }
    ensures at { is_met trace.now start (result - 1) ≡ true }
{
    let mut last = span.low;
    let mut end = span.end;
    let mut step = 0u32;
    'parts: while last + 1 < end {
        let at = end - 1 - ((end - 1 - last) / 2).min(step);
        if meets_pixel(trace, start, at, is_far) {
            last = at;
        } else {
            end = at;
            step = step << 1 | 1;
        }
    }
    end
}

// The first column of the span whose pixel is met, or the span's end.
#[inline(always)]
fn first_covered(trace: &Trace<'_>, start: Vector, span: Span, is_far: bool) -> u32
    requires near { is_far ≡ false → trace.now.is_far ≡ false }
    requires start_in { Within (2 ^ 38) start }
    requires order { span.low ≤ span.end }
    requires end_in { span.end ≤ 2 ^ 20 }
    ensures low { span.low ≤ result }
    ensures high { result ≤ span.end }
    ensures before { (i : ℕ) → span.low ≤ i → i < result → is_met trace.now start i ≡ false }
    ensures at { result < span.end → is_met trace.now start result ≡ true }
{
    let mut at = span.low;
    'columns: while at < span.end {
        if meets_pixel(trace, start, at, is_far) {
            return at;
        }
        at += 1;
    }
    at
}

// The column after the last one of the span whose pixel is met, or the span's first.
#[inline(always)]
fn end_of_covered(trace: &Trace<'_>, start: Vector, span: Span, is_far: bool) -> u32
    requires near { is_far ≡ false → trace.now.is_far ≡ false }
    requires start_in { Within (2 ^ 38) start }
    requires order { span.low ≤ span.end }
    requires end_in { span.end ≤ 2 ^ 20 }
    ensures low { span.low ≤ result }
    ensures high { result ≤ span.end }
    ensures after { (i : ℕ) → result ≤ i → i < span.end → is_met trace.now start i ≡ false }
    ensures at { span.low < result → is_met trace.now start (result - 1) ≡ true }
{
    let mut at = span.end;
    'columns: while span.low < at {
        if meets_pixel(trace, start, at - 1, is_far) {
            return at;
        }
        at -= 1;
    }
    at
}
