//! The inking of small boxes of short strokes.
//!
//! All pixels of such a box are tested, row by row, without a branch that the processor might guess wrong.
ghost use Rattle.std.specs.Prelude.{◌≡◌, ℕ, ◌+◌, ◌-◌, ◌*◌, ◌<◌, ◌≤◌, ◌^◌, ◌&&◌, ◌||◌, length, nat_abs, pos, ◌*ℤ◌, int_le, true};
ghost use Rattle.stroke_raster.specs.Bounds.{Within};
ghost use Rattle.stroke_raster.specs.Covers.{covers};
ghost use Rattle.stroke_raster.specs.Extents.{AreBoxed};
ghost use Rattle.stroke_raster.specs.Gap.{dot};
ghost use Rattle.stroke_raster.specs.Parts.{ArePartInked, HasRoom, IsPart, reached_in};
ghost use Rattle.stroke_raster.specs.ShortNumbers.{IsShort};
ghost use Rattle.stroke_raster.specs.Shorts.{AreMasked, is_short_met};
ghost use Rattle.stroke_raster.specs.Traces.{rightward};

use crate::ink::ink_mask;
use crate::layout::Layout;
use crate::pixel::{centre_of, cross_product, dot_product, first_end_of, times, way_between};
use crate::run::pixel_at;
use crate::short::{Short, doubled, short_of};
use crate::strip::Span;
use crate::vector::Vector;
use plot_page::{Dots, Page, Stroke};

// The most columns of a small box.
const FEW: u32 = 8;

/// Whether a box has few columns, but not none.
#[inline(always)]
pub fn has_few_columns(columns: Span) -> bool
    requires { columns.low ≤ columns.end }
    ensures some { result ≡ true → columns.low < columns.end }
    ensures few { result ≡ true → columns.end ≤ columns.low + FEW }
{
    let many = columns.end - columns.low;
    0 < many && many <= FEW
}

/// Whether a band has eight bytes, from that of the first column on, in each row of a part.
#[inline(always)]
pub fn has_room(part: Span, columns: Span, layout: Layout) -> bool
    requires from { layout.first ≤ part.low }
    requires order { part.low ≤ part.end }
    requires to { part.end ≤ layout.first + layout.rows }
    requires stride_small { layout.stride ≤ 2 ^ 20 }
    ensures { result ≡ true → HasRoom layout part columns }
{
    let stride = u64::from(layout.stride);
    let below = u64::from(layout.first) + u64::from(layout.rows) - u64::from(part.end);
    u64::from(columns.low / 8) + 8 <= (below + 1) * stride
}

// Whether the place to which `w` leads from the first end is within half of the drawn width of the stroke.
#[inline(always)]
fn short_stroke_meets(short: &Short, w: Vector) -> bool
    requires { Within 393216 w }
    ensures { result ≡ is_short_met short.now w }
{
    let near = doubled(w);
    let far = way_between(short.last, near);
    let along = dot_product(short.course, near);
    let beside = cross_product(short.course, near);
    let first = is_within(near, short.reach);
    let last = is_within(far, short.reach);
    let line = has_square_in(beside, short.limit);
    any_of(first, last, is_between(along, short.past), line)
}

// Whether a way is at most as long as the root of `reach`.
#[inline(always)]
fn is_within(w: Vector, reach: i64) -> bool
    requires w_in { Within (2 ^ 21) w }
    requires reach_in { nat_abs reach ≤ 2 ^ 40 }
    ensures { result ≡ int_le (dot w w) reach }
{
    w.x * w.x <= reach - w.y * w.y
}

// Whether the square of a number is at most `limit`.
#[inline(always)]
fn has_square_in(z: i64, limit: i64) -> bool
    requires { nat_abs z ≤ 2 ^ 31 }
    ensures { result ≡ int_le (z *ℤ z) limit }
{
    z * z <= limit
}

// Whether a number is above 0 and at most `past`.
#[inline(always)]
fn is_between(along: i64, past: u32) -> bool
    requires { nat_abs along ≤ 2 ^ 61 }
    ensures { result ≡ int_le (pos 1) along && int_le along (pos past) }
{
    let before = along - 1;
    (0 <= before) & (before < i64::from(past))
}

// Whether a place is near the first end, or near the last, or between both and near the line.
#[inline(always)]
fn any_of(first: bool, last: bool, is_between: bool, line: bool) -> bool
    ensures { result ≡ (first || (last || (is_between && line))) }
{
    first | last | is_between & line
}

// Which of some pixels are met, from the one to which `start` leads on.
#[inline(always)]
fn mask_of(short: &Short, start: Vector, many: u32) -> u64
    requires few { many ≤ FEW }
    requires start_in { Within (2 ^ 38) start }
    requires near { (i : ℕ) → i < many → Within 393216 (rightward start i) }
    ensures small { result < 2 ^ many }
    ensures bits { AreMasked short.now start many result }
{
    let mut mask = 0u64;
    for i in 0..many {
        let is_met = short_stroke_meets(short, pixel_at(start, i));
        mask = 2 * mask + u64::from(is_met);
    }
    mask
}

/// Makes the pixels that a short stroke covers, of a part of its box, black, and returns the number of tests.
#[inline(never)]
pub fn ink_short(
    stroke: &Stroke,
    page: &Page,
    dots: Dots,
    part: Span,
    columns: Span,
    layout: Layout,
    bits: &mut [u8],
) -> u64
    requires short { IsShort stroke.now dots }
    requires some { columns.low < columns.end }
    requires few { columns.end ≤ columns.low + FEW }
    requires part { IsPart page.now dots layout part columns }
    requires stride_small { layout.stride ≤ 2 ^ 20 }
    requires size { length bits.old ≡ layout.rows * layout.stride }
    requires boxed { AreBoxed stroke.now page.now dots part columns }
    requires room { HasRoom layout part columns }
    ensures size { length bits.new ≡ length bits.old }
    ensures bits { ArePartInked (covers stroke.now page.now dots) layout part columns bits.old bits.new }
    ensures least { reached_in (covers stroke.now page.now dots) part columns ≤ result }
    ensures most { result ≤ (part.end - part.low) * (columns.end - columns.low) }
{
    // A copy, which stays in registers while the bits change.
    let fixed = *page;
    let short = short_of(stroke, dots);
    let first = times(dots.resolution, first_end_of(stroke));
    let many = columns.end - columns.low;
    for row in part.low..part.end {
        let start = way_between(first, centre_of(&fixed, dots, row, columns.low));
        let mask = mask_of(&short, start, many);
        let at = (row - layout.first) as usize * layout.stride as usize;
        ink_mask(&mut bits[at..], columns.low, many, mask);
    }
    u64::from(part.end - part.low) * u64::from(many)
}
