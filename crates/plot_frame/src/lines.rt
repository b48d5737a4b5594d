//! The axes of a frame.
ghost use Rattle.std.specs.Prelude.{◌≡◌, ◌≤◌, ◌^◌, nat_abs};
ghost use Rattle.plot_frame.specs.declared.scaling.Scaling.TheVariants.{Isotropic};
ghost use Rattle.plot_frame.specs.Bounds.{IsLine, IsPoints, IsScaling, IsSide, IsSize};
ghost use Rattle.plot_frame.specs.Line.{seen, axis_line, line_of, line_of_stretched, line_of_even, even_offset};
ghost use Rattle.plot_frame.specs.Line.{unit_along, unscaled_line};

use crate::axis::Axis;
use crate::pair::{AxisName, Pair};
use crate::scaling::{Ends, FittedRange, Scaling};
use crate::sides::{Ratio, Side, factor_side, side_of, unit_on, unit_size};

/// An axis of a frame on a page whose left or lower edge lies `margin` plotter units, at most 524,288,
/// before 0.
pub fn axis_of(name: AxisName, points: &Pair<Ends>, scaling: &Scaling, margin: u32) -> Axis
    requires points { IsPoints points.now }
    requires scaling { IsScaling scaling.now }
    requires margin { margin ≤ 524288 }
    ensures value { result ≡ axis_line name points.now scaling.now margin }
    ensures line { IsLine result }
{
    let ends = points.on_axis(name);
    match scaling {
        Scaling::Off => unscaled_axis(margin),
        Scaling::Anisotropic(ranges) => stretched_axis(side_of(ends, ranges.on_axis(name)), margin),
        Scaling::Isotropic(fitting) => fitted_axis(name, points, fitting, margin),
        Scaling::PointFactor(factors) => {
            stretched_axis(factor_side(ends, factors.on_axis(name)), margin)
        },
    }
}

/// The axis on which coordinates are plotter units.
pub fn unscaled_axis(margin: u32) -> Axis
    requires margin { margin ≤ 524288 }
    ensures value { result ≡ unscaled_line margin }
    ensures line { IsLine result }
{
    line_for(i128::from(margin), 1, 0, 1_000_000)
}

// The axis whose units are as long as those of the other one.
fn fitted_axis(
    name: AxisName,
    points: &Pair<Ends>,
    fitting: &Pair<FittedRange>,
    margin: u32,
) -> Axis
    requires points { IsPoints points.now }
    requires fitting { IsScaling (Isotropic fitting.now) }
    requires margin { margin ≤ 524288 }
    ensures value { result ≡ axis_line name points.now (Isotropic fitting.now) margin }
    ensures line { IsLine result }
{
    let wide = side_of(points.x, fitting.x.range);
    let high = side_of(points.y, fitting.y.range);
    let own = fitting.on_axis(name);
    let side = side_of(points.on_axis(name), own.range);
    even_axis(unit_size(wide, high), side, i128::from(own.share), margin)
}

// The axis on which P1 and P2 have the ends of the range.
fn stretched_axis(side: Side, margin: u32) -> Axis
    requires side { IsSide side }
    requires margin { margin ≤ 524288 }
    ensures value { result ≡ line_of_stretched side margin }
    ensures line { IsLine result }
{
    let origin = side.start + i128::from(margin);
    if side.extent < 0 {
        line_for(origin, -side.distance, side.least, -side.extent)
    } else {
        line_for(origin, side.distance, side.least, side.extent)
    }
}

// The line on which the coordinates from `least` on take `distance` units for every `under`.
fn line_for(origin: i128, distance: i128, least: i128, under: i128) -> Axis
    requires origin_in { nat_abs origin ≤ 2 ^ 27 }
    requires distance_in { nat_abs distance ≤ 2 ^ 43 }
    requires least_in { nat_abs least ≤ 2 ^ 43 }
    requires under_in { nat_abs under ≤ 2 ^ 44 }
    ensures value { result ≡ line_of origin distance least under }
{
    Axis {
        slope: 16 * distance,
        offset: 16 * (origin * under - least * distance),
        under,
    }
}

// The axis on which a unit has the given size, and P1 has its share of what is left over.
fn even_axis(size: Ratio, side: Side, percent: i128, margin: u32) -> Axis
    requires size { IsSize size }
    requires side { IsSide side }
    requires short { nat_abs side.distance ≤ 2 ^ 25 }
    requires percent_in { nat_abs percent ≤ 10 ^ 8 }
    requires margin { margin ≤ 524288 }
    ensures value { result ≡ line_of_even (seen size) side percent margin }
    ensures line { IsLine result }
{
    let unit = unit_on(size, side);
    let under = size.under as i128;
    let origin = side.start + i128::from(margin);
    Axis {
        slope: 16 * (100_000_000 * unit),
        offset: offset_for(unit, under, origin, side, percent),
        under: 100_000_000 * under,
    }
}

// The place of coordinate 0 on an axis with a unit's size of unit / under, over 10^8 * under: a share
// of what the range leaves over lies before it.
fn offset_for(unit: i128, under: i128, origin: i128, side: Side, percent: i128) -> i128
    requires unit_in { nat_abs unit ≤ 2 ^ 25 }
    requires under_in { nat_abs under ≤ 2 ^ 44 }
    requires origin_in { nat_abs origin ≤ 2 ^ 26 }
    requires side { IsSide side }
    requires short { nat_abs side.distance ≤ 2 ^ 25 }
    requires percent_in { nat_abs percent ≤ 10 ^ 8 }
    ensures value { result ≡ even_offset unit under origin side percent }
    ensures bound { nat_abs result ≤ 2 ^ 104 }
{
    let left_over = side.distance * under - unit * side.extent;
    let share = percent * left_over;
    let behind = 100_000_000 * (unit * side.least);
    let ahead = origin * (100_000_000 * under);
    16 * (ahead + share - behind)
}
