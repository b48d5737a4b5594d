//! The pixel test: whether a stroke covers the centre of a pixel.
ghost use Rattle.std.specs.Prelude.{◌≡◌, ◌<◌, ◌^◌, cond, false};
ghost use Rattle.stroke_raster.specs.Bounds.{Within};
ghost use Rattle.stroke_raster.specs.Covers.{covers};
ghost use Rattle.plot_page.specs.Resolutions.{columns_of, rows_of};
ghost use Rattle.stroke_raster.specs.Traces.{is_near};

use crate::far::far_meets;
use crate::pixel::{centre_of, dot_product, is_beside, is_in_window, is_short, way_between};
use crate::trace::{Trace, trace_of};
use crate::vector::Vector;
use plot_page::{Dots, Page, Stroke};

/// Whether the stroke covers the pixel: the pixel's centre lies in the stroke's window, edges
/// included, and within half of the drawn width of some point of the stroke, equality included.
/// The drawn width is the stroke's own, and at least one and a half pixels.
#[inline(always)]
pub fn near(stroke: &Stroke, page: &Page, dots: Dots, row: u32, column: u32) -> bool
    requires row_in { row < rows_of page.now dots }
    requires column_in { column < columns_of page.now dots }
    ensures { result ≡ covers stroke.now page.now dots row column }
{
    let place = centre_of(page, dots, row, column);
    let trace = trace_of(stroke, dots, true);
    is_in_window(stroke, dots, place) && meets_any(&trace, way_between(trace.first, place))
}

// The answer of `meets`, also for a far stroke.
#[inline(always)]
fn meets_any(trace: &Trace<'_>, w: Vector) -> bool
    requires { Within (2 ^ 39) w }
    ensures { result ≡ is_near trace.now w }
{
    if trace.is_far {
        far_meets(trace, w)
    } else {
        meets(trace, w)
    }
}

/// Whether the place to which `w` leads from the first end of a stroke that is not far is within half of
/// the drawn width of the stroke.
#[inline(always)]
pub fn meets(trace: &Trace<'_>, w: Vector) -> bool
    requires near { trace.now.is_far ≡ false }
    requires w_in { Within (2 ^ 39) w }
    ensures { result ≡ is_near trace.now w }
{
    let along = dot_product(trace.course, w);
    if along <= 0 {
        return is_short(w, trace.reach);
    }
    if trace.along <= along {
        return is_short(way_between(trace.scaled_course, w), trace.reach);
    }
    is_beside(trace.course, w, trace.limit)
}

/// The answer of `meets`, from all of its tests, without a branch that the processor might guess wrong.
#[inline(always)]
pub fn meets_evenly(trace: &Trace<'_>, w: Vector) -> bool
    requires near { trace.now.is_far ≡ false }
    requires w_in { Within (2 ^ 39) w }
    ensures { result ≡ is_near trace.now w }
{
    let along = dot_product(trace.course, w);
    let first = is_short(w, trace.reach);
    let last = is_short(way_between(trace.scaled_course, w), trace.reach);
    let line = is_beside(trace.course, w, trace.limit);
    chosen(along <= 0, trace.along <= along, first, last, line)
}

// The answer of the test that decides: that of the first end, of the last end or of the line.
#[inline(always)]
fn chosen(is_before: bool, is_past: bool, first: bool, last: bool, line: bool) -> bool
    ensures { result ≡ cond is_before first (cond is_past last line) }
{
    is_before & first | !is_before & (is_past & last | !is_past & line)
}
