//! Traces: strokes with the numbers that all of their rows share.
ghost use Rattle.std.specs.Prelude.{◌≡◌, ◌≤◌, ◌^◌, ◌*ℤ◌, false, nat_abs, pos};
ghost use Rattle.stroke_raster.specs.TraceNumbers.{IsTrace};

use crate::far::is_far;
use crate::pixel::{drawn_width_of, first_end_of, last_end_of, squared_length, times, way_between};
use crate::slope::{Slope, slope_of};
use crate::vector::Vector;
use plot_page::{Dots, Stroke};

/// A stroke at a resolution, with what the test of a pixel needs and all of its pixels share.
///
/// Places, and the ways to them, are in grains divided by the resolution, where all of them are
/// whole. The course stays in grains, so that if the stroke is not far all products but those of two
/// comparisons fit 64 bits.
#[derive(Clone, Copy, Debug)]
pub struct Trace<'s> {
    /// The stroke.
    pub stroke: &'s Stroke,
    /// The resolution.
    pub dots: Dots,
    /// The place of the stroke's first end.
    pub first: Vector,
    /// The way from the stroke's first end to its last end, in grains.
    pub course: Vector,
    /// The course, in grains divided by the resolution.
    pub scaled_course: Vector,
    /// The dot product of the course with the way to its end: the resolution times the squared length.
    /// 0 if the stroke is far.
    pub along: i64,
    /// The square of the drawn width.
    pub reach: i128,
    /// The product of the square of the drawn width and the course's squared length.
    pub limit: i128,
    /// How the stroke's line crosses rows.
    pub slope: Slope,
    /// Whether the stroke's box has so few pixels that all are tested. Those of a far stroke are not.
    pub is_small: bool,
    /// Whether the stroke is so long that its tests need products of more than 64 bits.
    pub is_far: bool,
    pub ghost sound: { IsTrace stroke.now dots first course scaled_course along reach limit slope is_small is_far },
}

/// The trace of a stroke. `is_small` says that its box has few pixels.
#[inline(always)]
pub fn trace_of<'s>(stroke: &'s Stroke, dots: Dots, is_small: bool) -> Trace<'s>
    ensures stroke { result.stroke.now ≡ stroke.entry.now }
    ensures dots { result.dots ≡ dots }
{
    let from = first_end_of(stroke);
    let course = way_between(from, last_end_of(stroke));
    let width = drawn_width_of(stroke, dots);
    let is_far = is_far(course);
    let squared = squared_length(course);
    let reach = i128::from(u64::from(width) * u64::from(width));
    Trace {
        stroke,
        dots,
        first: times(dots.resolution, from),
        course,
        scaled_course: times(dots.resolution, course),
        along: along_of(dots, squared, is_far),
        reach,
        limit: reach * i128::from(squared),
        slope: slope_of(course, width, is_small),
        is_small: is_small & !is_far,
        is_far,
    }
}

// The resolution times the squared length of a course that is not far.
#[inline(always)]
fn along_of(dots: Dots, squared: i64, is_far: bool) -> i64
    requires { is_far ≡ false → nat_abs squared ≤ 2 ^ 43 }
    ensures { is_far ≡ false → result ≡ pos dots.resolution *ℤ squared }
{
    if is_far {
        0
    } else {
        i64::from(dots.resolution) * squared
    }
}
