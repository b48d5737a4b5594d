//! The places of pixels and of strokes, and the comparisons between them.
//!
//! Places are in grains divided by the resolution, where all of them are whole. The ways along strokes
//! stay in grains, so that all products but those of two comparisons fit 64 bits, unless a stroke is far:
//! then those of its other tests need 128 bits too, and `far` has them.
ghost use Rattle.std.specs.Prelude.{◌≡◌, ◌≤◌, ◌<◌, ◌^◌, ◌*◌, pos, nat_abs, ◌*ℤ◌, ◌&&◌, int_le, neg_ℤ};
ghost use Rattle.stroke_raster.specs.Bounds.{Within};
ghost use Rattle.stroke_raster.specs.Gap.{way, scaled, dot, cross, gap_met};
ghost use Rattle.stroke_raster.specs.Covers.{between, in_window, first_end, last_end, drawn_width, is_gap_met, centre};
ghost use Rattle.stroke_raster.specs.Covers.{covers};
ghost use Rattle.plot_page.specs.Resolutions.{columns_of, rows_of};

use crate::vector::Vector;
use plot_page::{Dots, Page, Stroke, Window};

// The least width that is drawn, one and a half pixels. A pixel is 16,256 grains divided by the
// resolution wide: an inch has 1016 plotter units of 16 grains.
const LEAST_WIDTH: u32 = 24384;

/// The centre of a pixel, or of the one that would follow a row's last, in grains divided by the resolution. It is an odd number of half
/// pixels, 8,128 steps each, from the left and upper edges of the page.
#[inline(always)]
pub fn centre_of(page: &Page, dots: Dots, row: u32, column: u32) -> Vector
    requires row_in { row < rows_of page.now dots }
    requires column_in { column ≤ columns_of page.now dots }
    ensures value { result ≡ centre page.now.height dots.resolution row column }
    ensures small { Within (2 ^ 34) result }
{
    let _width = page.width;
    Vector {
        x: i64::from(2 * column + 1) * 8128,
        y: top_of(page, dots) - i64::from(2 * row + 1) * 8128,
    }
}

/// How high the page's upper edge is.
#[inline(always)]
pub fn top_of(page: &Page, dots: Dots) -> i64
    ensures value { result ≡ pos (16 * page.now.height * dots.resolution) }
    ensures small { nat_abs result ≤ 2 ^ 34 }
{
    i64::from(16 * page.height) * i64::from(dots.resolution)
}

/// Whether the place lies in the stroke's window.
#[inline(always)]
pub fn is_in_window(stroke: &Stroke, dots: Dots, place: Vector) -> bool
    ensures { result ≡ in_window stroke.now.window dots.resolution place }
{
    let window = stroke.window;
    is_between(window.x0, window.x1, dots, place.x)
        && is_between(window.y0, window.y1, dots, place.y)
}

/// Whether a coordinate lies between two numbers of grains.
#[inline(always)]
pub fn is_between(low: i32, high: i32, dots: Dots, z: i64) -> bool
    ensures { result ≡ between (pos dots.resolution *ℤ low) (pos dots.resolution *ℤ high) z }
{
    let r = i64::from(dots.resolution);
    r * i64::from(low) <= z && z <= r * i64::from(high)
}

// The drawn width of the stroke, in grains divided by the resolution.
#[inline(always)]
pub fn drawn_width_of(stroke: &Stroke, dots: Dots) -> u32
    ensures value { result ≡ drawn_width stroke.now.width dots.resolution }
    ensures small { result ≤ 2 ^ 24 }
{
    (stroke.width * dots.resolution).max(LEAST_WIDTH)
}

#[inline(always)]
pub fn first_end_of(stroke: &Stroke) -> Vector
    ensures value { result ≡ first_end stroke.now }
    ensures small { Within (2 ^ 27) result }
{
    Vector {
        x: i64::from(stroke.ax),
        y: i64::from(stroke.ay),
    }
}

#[inline(always)]
pub fn last_end_of(stroke: &Stroke) -> Vector
    ensures value { result ≡ last_end stroke.now }
    ensures small { Within (2 ^ 27) result }
{
    Vector {
        x: i64::from(stroke.bx),
        y: i64::from(stroke.by),
    }
}

// The way from one place to another.
#[inline(always)]
pub fn way_between(from: Vector, to: Vector) -> Vector
    requires from_in { Within (2 ^ 40) from }
    requires to_in { Within (2 ^ 40) to }
    ensures { result ≡ way from to }
{
    Vector {
        x: to.x - from.x,
        y: to.y - from.y,
    }
}

#[inline(always)]
pub fn times(k: u32, v: Vector) -> Vector
    requires k_in { k ≤ 1200 }
    requires v_in { Within (2 ^ 28) v }
    ensures { result ≡ scaled (pos k) v }
{
    Vector {
        x: i64::from(k) * v.x,
        y: i64::from(k) * v.y,
    }
}

#[inline(always)]
pub fn dot_product(v: Vector, w: Vector) -> i64
    requires v_in { Within (2 ^ 21) v }
    requires w_in { Within (2 ^ 39) w }
    ensures value { result ≡ dot v w }
    ensures small { nat_abs result ≤ 2 ^ 61 }
{
    v.x * w.x + v.y * w.y
}

#[inline(always)]
pub fn squared_length(v: Vector) -> i64
    requires { Within (2 ^ 28) v }
    ensures value { result ≡ dot v v }
    ensures small { nat_abs result ≤ 2 ^ 57 }
{
    v.x * v.x + v.y * v.y
}

#[inline(always)]
pub fn cross_product(v: Vector, w: Vector) -> i64
    requires v_in { Within (2 ^ 21) v }
    requires w_in { Within (2 ^ 39) w }
    ensures value { result ≡ cross v w }
    ensures small { nat_abs result ≤ 2 ^ 61 }
{
    v.x * w.y - v.y * w.x
}

// Whether a way is at most half as long as the root of `reach`.
#[inline(always)]
pub fn is_short(w: Vector, reach: i128) -> bool
    requires w_in { Within (2 ^ 40) w }
    ensures { result ≡ int_le (pos 4 *ℤ dot w w) reach }
{
    let x = i128::from(w.x);
    let y = i128::from(w.y);
    4 * (x * x + y * y) <= reach
}

// Whether the cross product of two ways is at most half of the root of `limit`. The sides need more
// than 64 bits.
#[inline(always)]
pub fn is_beside(v: Vector, w: Vector, limit: i128) -> bool
    requires v_in { Within (2 ^ 21) v }
    requires w_in { Within (2 ^ 39) w }
    ensures { result ≡ int_le (pos 4 *ℤ (cross v w *ℤ cross v w)) limit }
{
    let beside = i128::from(2 * cross_product(v, w));
    beside * beside <= limit
}
