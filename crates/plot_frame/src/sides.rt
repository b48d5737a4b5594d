//! The side of a frame on an axis: what P1, P2 and SC say there.
ghost use Rattle.std.specs.Prelude.{◌≡◌, ◌≢◌, ◌≤◌, ◌^◌, nat_abs, pos};
ghost use Rattle.plot_frame.specs.Bounds.{IsEnds, IsRange, IsFactor, IsSide, IsSize};
ghost use Rattle.plot_frame.specs.Frame as frame;
ghost use Rattle.plot_frame.specs.Line.{seen, unit_along, factor_side};

use crate::scaling::{Ends, Factor, Range};

/// A side begins at P1, at plotter coordinate `start`, and P2 is `distance` plotter units from there.
/// The coordinate of P1 is `least`, and that of P2 is `extent` more, both in millionths.
#[derive(Clone, Copy, Debug)]
pub struct Side {
    pub start: i128,
    pub distance: i128,
    pub least: i128,
    pub extent: i128,
}

/// A number above 0 as a fraction.
#[derive(Clone, Copy, Debug)]
pub struct Ratio {
    pub over: u128,
    pub under: u128,
}

/// The side with a range.
pub fn side_of(ends: Ends, range: Range) -> Side
    requires ends { IsEnds ends }
    requires range { IsRange range }
    ensures value { result ≡ frame.side_of ends range }
    ensures side { IsSide result }
    ensures short { nat_abs result.distance ≤ 2 ^ 25 }
{
    Side {
        start: i128::from(ends.first),
        distance: i128::from(ends.last - ends.first),
        least: i128::from(range.least),
        extent: i128::from(range.most - range.least),
    }
}

/// The side by a factor: `distance` is the plotter units that a million units take.
pub fn factor_side(ends: Ends, factor: Factor) -> Side
    requires ends { IsEnds ends }
    requires factor { IsFactor factor }
    ensures value { result ≡ factor_side ends factor }
    ensures side { IsSide result }
{
    Side {
        start: i128::from(ends.first),
        distance: i128::from(factor.factor),
        least: i128::from(factor.least),
        extent: 1_000_000_000_000,
    }
}

// How many plotter units a millionth takes on a side, whichever way it runs.
fn ratio_of(side: Side) -> Ratio
    requires side { IsSide side }
    requires short { nat_abs side.distance ≤ 2 ^ 25 }
    ensures value { seen result ≡ frame.ratio side }
    ensures size { IsSize result }
{
    Ratio {
        over: side.distance.unsigned_abs(),
        under: side.extent.unsigned_abs(),
    }
}

/// The size of a unit that is the same on both sides: the smaller of the two.
pub fn unit_size(wide: Side, high: Side) -> Ratio
    requires wide { IsSide wide }
    requires high { IsSide high }
    requires wide_short { nat_abs wide.distance ≤ 2 ^ 25 }
    requires high_short { nat_abs high.distance ≤ 2 ^ 25 }
    ensures value { seen result ≡ frame.lesser (frame.ratio wide) (frame.ratio high) }
    ensures size { IsSize result }
{
    let wide = ratio_of(wide);
    let high = ratio_of(high);
    if wide.over * high.under <= high.over * wide.under {
        wide
    } else {
        high
    }
}

/// A size's numerator, negative on a side where coordinates fall as plotter coordinates rise.
pub fn unit_on(size: Ratio, side: Side) -> i128
    requires side { IsSide side }
    requires size { IsSize size }
    ensures value { result ≡ unit_along (seen size) side }
    ensures bound { nat_abs result ≤ 2 ^ 25 }
    ensures not_0 { result ≢ pos 0 }
{
    let over = size.over as i128;
    if (side.distance < 0) == (side.extent < 0) {
        over
    } else {
        -over
    }
}
