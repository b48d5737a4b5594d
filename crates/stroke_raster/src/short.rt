//! Short strokes: those of whose test all products fit in 64 bits.
ghost use Rattle.std.specs.Prelude.{◌≡◌, ◌≤◌, ◌^◌, true, pos};
ghost use Rattle.stroke_raster.specs.Bounds.{Within};
ghost use Rattle.stroke_raster.specs.Covers.{drawn_width, first_end, last_end};
ghost use Rattle.stroke_raster.specs.Gap.{scaled, way};
ghost use Rattle.stroke_raster.specs.ShortNumbers.{AreShort, IsShort};

use crate::pixel::{drawn_width_of, first_end_of, last_end_of, squared_length, times, way_between};
use crate::vector::Vector;
use plot_page::{Dots, Stroke};

/// A short stroke, with what the test of a pixel needs. Ways are in grains divided by the resolution, and
/// doubled, so that half of the drawn width is a whole number too.
#[derive(Clone, Copy, Debug)]
pub struct Short {
    /// The way from its first end to its last, in grains.
    pub course: Vector,
    /// The resolution.
    pub resolution: u32,
    /// The drawn width.
    pub width: u32,
    /// The way from its first end to its last.
    pub last: Vector,
    /// The dot product of the course with that way, less 1 if it is above 0.
    pub past: u32,
    /// The square of the drawn width.
    pub reach: i64,
    /// The product of that square and the course's squared length.
    pub limit: i64,
    pub ghost sound: { AreShort course resolution width last past reach limit },
}

/// Whether a stroke is short.
#[inline(always)]
pub fn is_short(stroke: &Stroke, dots: Dots) -> bool
    ensures { result ≡ true → IsShort stroke.now dots }
{
    let course = way_between(first_end_of(stroke), last_end_of(stroke));
    let sides = course.x.unsigned_abs() + course.y.unsigned_abs();
    sides <= 2048
        && u64::from(dots.resolution) * sides <= 262_144
        && drawn_width_of(stroke, dots) <= 262_144
}

/// The numbers of a short stroke's test.
#[inline(always)]
pub fn short_of(stroke: &Stroke, dots: Dots) -> Short
    requires { IsShort stroke.now dots }
    ensures course { result.course ≡ way (first_end stroke.now) (last_end stroke.now) }
    ensures resolution { result.resolution ≡ dots.resolution }
    ensures width { result.width ≡ drawn_width stroke.now.width dots.resolution }
{
    let course = way_between(first_end_of(stroke), last_end_of(stroke));
    let width = drawn_width_of(stroke, dots);
    let squared = squared_length(course);
    let reach = i64::from(width) * i64::from(width);
    let along = 2 * u64::from(dots.resolution) * squared.unsigned_abs();
    Short {
        course,
        resolution: dots.resolution,
        width,
        last: doubled(times(dots.resolution, course)),
        past: along.saturating_sub(1) as u32,
        reach,
        limit: reach * squared,
    }
}

/// The double of a way.
#[inline(always)]
pub fn doubled(w: Vector) -> Vector
    requires { Within (2 ^ 32) w }
    ensures { result ≡ scaled (pos 2) w }
{
    Vector {
        x: 2 * w.x,
        y: 2 * w.y,
    }
}
