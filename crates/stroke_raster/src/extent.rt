//! The rows and the columns of a stroke's box.
ghost use Rattle.std.specs.Prelude.{◌≡◌, ℕ, ℤ, ◌+◌, ◌*◌, ◌<◌, ◌≤◌, ◌^◌, pos, nat_abs, ◌+ℤ◌, ◌-ℤ◌, ◌*ℤ◌, ◌≤ℤ◌, true};
ghost use Rattle.std.specs.Int.{int_min, int_max};
ghost use Rattle.plot_page.specs.Resolutions.{columns_of, rows_of};
ghost use Rattle.stroke_raster.specs.Extents.{first_place, end_place, first_row_of, end_row_of, HoldRows, HoldColumns};
ghost use Rattle.stroke_raster.specs.Extents.{AreBoxed};

use crate::pixel::{drawn_width_of, top_of};
use crate::strip::Span;
use plot_page::{Dots, Page, Stroke};

/// The rows and the columns whose pixels lie in a stroke's box.
#[derive(Clone, Copy, Debug)]
pub struct Extent {
    pub rows: Span,
    pub columns: Span,
}

// The most rows, and the most columns, of a small box.
const FEW: u32 = 3;

impl Extent {
    /// Whether the box has few pixels.
    #[inline(always)]
    pub fn is_small(&self) -> bool {
        self.rows.end <= self.rows.low.saturating_add(FEW)
            && self.columns.end <= self.columns.low.saturating_add(FEW)
    }
}

/// The least and the greatest that the double of a coordinate may be.
#[derive(Clone, Copy, Debug)]
pub struct Sides {
    pub low: i64,
    pub high: i64,
}

/// The box of a stroke, on the page.
#[inline(always)]
pub fn extent_of(stroke: &Stroke, page: &Page, dots: Dots) -> Extent
    ensures rows { result.rows.end ≤ rows_of page.now dots }
    ensures columns { result.columns.end ≤ columns_of page.now dots }
    ensures rows_order { result.rows.low ≤ result.rows.end }
    ensures columns_order { result.columns.low ≤ result.columns.end }
    ensures low { result.rows.low ≡ first_row_of stroke.now page.now dots }
    ensures end { result.rows.end ≡ end_row_of stroke.now page.now dots }
    ensures row_in { HoldRows stroke.now page.now dots result.rows }
    ensures column_in { HoldColumns stroke.now page.now dots result.columns }
    ensures full { AreBoxed stroke.now page.now dots result.rows result.columns }
{
    let d = drawn_width_of(stroke, dots);
    let r = dots.resolution;
    let window = stroke.window;
    let x = sides_of(window.x0, window.x1, stroke.ax, stroke.bx, r, d);
    let y = sides_of(window.y0, window.y1, stroke.ay, stroke.by, r, d);
    let top = 2 * top_of(page, dots);
    Extent {
        rows: places_between(top - y.high, top - y.low, dots.rows(page)),
        columns: places_between(x.low, x.high, dots.columns(page)),
    }
}

// Between which numbers the double of a coordinate lies in the box: the window's edges, and the
// stroke's ends, widened by half of the drawn width.
fn sides_of(w0: i32, w1: i32, a: i32, b: i32, r: u32, d: u32) -> Sides
    requires r_in { r ≤ 1200 }
    requires d_in { d ≤ 2 ^ 24 }
    ensures low { result.low ≡ int_max (pos (2 * r) *ℤ w0) (int_min (pos (2 * r) *ℤ a) (pos (2 * r) *ℤ b) -ℤ pos d) }
    ensures high { result.high ≡ int_min (pos (2 * r) *ℤ w1) (int_max (pos (2 * r) *ℤ a) (pos (2 * r) *ℤ b) +ℤ pos d) }
    ensures low_small { nat_abs result.low ≤ 2 ^ 45 }
    ensures high_small { nat_abs result.high ≤ 2 ^ 45 }
{
    let a = doubled(r, a);
    let b = doubled(r, b);
    Sides {
        low: doubled(r, w0).max(a.min(b) - i64::from(d)),
        high: doubled(r, w1).min(a.max(b) + i64::from(d)),
    }
}

/// The double of a number of grains, in grains divided by the resolution.
pub fn doubled(r: u32, z: i32) -> i64
    requires r_in { r ≤ 1200 }
    ensures value { result ≡ pos (2 * r) *ℤ z }
    ensures small { nat_abs result ≤ 2 ^ 43 }
{
    i64::from(2 * r) * i64::from(z)
}

/// The rows or columns i below `count` for which (2 * i + 1) * 16256 is between two numbers. A pixel
/// is 16,256 steps wide, so this is the double of its centre's coordinate.
pub fn places_between(low: i64, high: i64, count: u32) -> Span
    requires low_in { nat_abs low ≤ 2 ^ 50 }
    requires high_in { nat_abs high ≤ 2 ^ 50 }
    ensures order { result.low ≤ result.end }
    ensures end { result.end ≤ count }
    ensures low_is { result.low ≡ first_place low high count }
    ensures end_is { result.end ≡ end_place high count }
    ensures holds { (i : ℕ) → i < count → low ≤ℤ pos ((2 * i + 1) * 16256) → pos ((2 * i + 1) * 16256) ≤ℤ high →
        (result.low ≤ i) × (i < result.end) }
    ensures from { (i : ℕ) → result.low ≤ i → i < result.end → low ≤ℤ pos ((2 * i + 1) * 16256) }
    ensures to { (i : ℕ) → i < result.end → pos ((2 * i + 1) * 16256) ≤ℤ high }
{
    let last = high - 16256;
    if last < 0 {
        return Span { low: 0, end: 0 };
    }
    let end = (last.unsigned_abs() / 32512 + 1).min(u64::from(count)) as u32;
    let before = low - 16256;
    if before <= 0 {
        return Span { low: 0, end };
    }
    let first = (before.unsigned_abs() + 32511) / 32512;
    Span {
        low: first.min(u64::from(end)) as u32,
        end,
    }
}
