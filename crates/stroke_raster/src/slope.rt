//! How a stroke's line crosses the rows of pixels.
ghost use Rattle.std.specs.Prelude.{◌≡◌, ◌≤◌, ◌<◌, ◌^◌, ◌*◌, ◌+◌, pos, nat_abs, ◌≤ℤ◌};
ghost use Rattle.stroke_raster.specs.Bounds.{Within};
ghost use Rattle.stroke_raster.specs.Gap.{dot};
ghost use Rattle.stroke_raster.specs.TraceNumbers.{IsSlope, IsInverse};

use crate::pixel::squared_length;
use crate::vector::Vector;

// A length of 64 plotter units, in grains: strokes that are longer are large.
const LARGE: u64 = 1024;

/// What finds the columns of a row that are near a stroke's line, by twice the cross product of the
/// course and the way to a pixel's centre: it grows or falls by `step` from each column to the next,
/// and near the line it is within `most` of 0. The reciprocals of the step, times 2^64, save the
/// divisions of each row.
#[derive(Clone, Copy, Debug)]
pub struct Slope {
    /// A whole number that is at least the course's length, in grains.
    pub length: u32,
    /// The product of the drawn width and that number.
    pub most: i64,
    /// By how much the cross product's double changes from column to column.
    pub step: u64,
    /// The step's reciprocal.
    pub inverse: Inverse,
}

/// A lower and an upper bound of 2^64 divided by a number.
#[derive(Clone, Copy, Debug)]
pub struct Inverse {
    pub under: u64,
    pub over: u64,
}

/// The slope of a course, in grains, of a stroke of this drawn width. Where no strip is made it may be rough,
/// which saves two divisions.
#[inline(always)]
pub fn slope_of(course: Vector, width: u32, is_rough: bool) -> Slope
    requires course_in { Within (2 ^ 28) course }
    requires width_in { width ≤ 2 ^ 24 }
    ensures { IsSlope course width result }
{
    if is_rough {
        let inverse = Inverse {
            under: 0,
            over: u64::MAX,
        };
        slope_by(course, width, sum_of_sides(course), inverse)
    } else {
        slope_by(course, width, length_at_most(course), inverse_of(course))
    }
}

// The slope, by a length and a reciprocal of the step.
#[inline(always)]
fn slope_by(course: Vector, width: u32, length: u32, inverse: Inverse) -> Slope
    requires course_in { Within (2 ^ 28) course }
    requires width_in { width ≤ 2 ^ 24 }
    requires enough { dot course course ≤ℤ pos (length * length) }
    requires length_in { length ≤ 2 ^ 30 }
    requires inverse { IsInverse (32512 * nat_abs course.y) inverse }
    ensures { IsSlope course width result }
{
    Slope {
        length,
        most: i64::from(width) * i64::from(length),
        step: 32512 * course.y.unsigned_abs(),
        inverse,
    }
}

// The reciprocal of the step, as near as it has to be: the columns of a stroke that rises over 256
// plotter units may be many, those of others are few, and 32 bits are divided faster.
#[inline(always)]
fn inverse_of(course: Vector) -> Inverse
    requires { Within (2 ^ 28) course }
    ensures { IsInverse (32512 * nat_abs course.y) result }
{
    let rise = course.y.unsigned_abs() as u32;
    if rise < 4096 {
        let inverse = u64::from(u32::MAX / rise.max(1));
        return Inverse {
            under: inverse * 132_104,
            over: (inverse + 1) * 132_105,
        };
    }
    let inverse = u64::MAX / (32512 * u64::from(rise));
    Inverse {
        under: inverse,
        over: inverse + 1,
    }
}

// A whole number that is at least the length of the way.
#[inline(always)]
fn length_at_most(way: Vector) -> u32
    requires { Within (2 ^ 28) way }
    ensures enough { dot way way ≤ℤ pos (result * result) }
    ensures small { result ≤ 2 ^ 30 }
{
    let x = way.x.unsigned_abs();
    let y = way.y.unsigned_abs();
    let guess = (x.max(y) + x.min(y) / 2).max(1);
    let root = root_at_most(squared_length(way).unsigned_abs(), guess);
    root.min(x + y) as u32
}

// A whole number whose square is at least this one, by one step from a near guess, or by two if it is large:
// a long stroke crosses many rows, in which a strip too wide costs more than a division.
#[inline(always)]
fn root_at_most(square: u64, guess: u64) -> u64
    requires square_in { square ≤ 2 ^ 58 }
    requires guess_in { guess ≤ 2 ^ 50 }
    requires some { 0 < guess }
    ensures { square ≤ result * result }
{
    let near = nearer(square, guess);
    if guess < LARGE {
        return near;
    }
    nearer(square, near)
}

// One step of Newton's method, which does not fall below the root.
#[inline(always)]
fn nearer(square: u64, guess: u64) -> u64
    requires square_in { square ≤ 2 ^ 60 }
    requires guess_in { guess ≤ 2 ^ 60 }
    requires some { 0 < guess }
    ensures enough { square ≤ result * result }
    ensures some { 0 < result }
    ensures most { result ≤ guess + square + 1 }
{
    (guess + square / guess) / 2 + 1
}

// The sum of the sides of a way, which is at least its length.
#[inline(always)]
fn sum_of_sides(way: Vector) -> u32
    requires { Within (2 ^ 28) way }
    ensures enough { dot way way ≤ℤ pos (result * result) }
    ensures small { result ≤ 2 ^ 30 }
{
    (way.x.unsigned_abs() + way.y.unsigned_abs()) as u32
}
