// Frames by the numbers that they give.
ghost use Rattle.plot_frame.specs.Bounds.{Both, IsPoints, IsRange, IsScaling};

use plot_frame::AxisName::{X, Y};
use plot_frame::{Ends, Factor, FittedRange, Pair, Range, Scaling, axis_of, unscaled_axis};

// P1 at (0, 0), P2 at (128, 64).
fn wide() -> Pair<Ends>
    ensures { IsPoints result }
{
    Pair {
        x: Ends {
            first: 0,
            last: 128,
        },
        y: Ends { first: 0, last: 64 },
    }
}

// 0 to 8 on both axes.
fn eight() -> Pair<Range>
    ensures { Both IsRange result }
{
    let range = Range {
        least: 0,
        most: 8_000_000,
    };
    Pair { x: range, y: range }
}

// With a quarter of what is left over on the left, and half of it at the bottom.
fn fitted(ranges: Pair<Range>) -> Scaling
    requires { Both IsRange ranges }
    ensures { IsScaling result }
{
    Scaling::Isotropic(Pair {
        x: FittedRange {
            range: ranges.x,
            share: 25_000_000,
        },
        y: FittedRange {
            range: ranges.y,
            share: 50_000_000,
        },
    })
}

#[test]
fn plotter_units(rt: HostRuntime) {
    let axis = unscaled_axis(10);
    assert_eq!(rt;
        [axis.place(3_500_000), axis.coordinate(216)],
        [216, 3_500_000]
    );
}

#[test]
fn user_units(rt: HostRuntime) {
    let ranges = Scaling::Anisotropic(eight());
    let fitting = fitted(eight());
    let factors = Scaling::PointFactor(Pair {
        x: Factor {
            least: 1_000_000,
            factor: 500_000,
        },
        y: Factor {
            least: 1_000_000,
            factor: -2_000_000,
        },
    });
    let found = [
        axis_of(X, &wide(), &ranges, 0).place(3_500_000),
        axis_of(Y, &wide(), &ranges, 5).place(3_500_000),
        axis_of(X, &wide(), &fitting, 0).place(1_000_000),
        axis_of(Y, &wide(), &fitting, 0).coordinate(128),
        axis_of(X, &wide(), &factors, 0).place(3_000_000),
        axis_of(Y, &wide(), &factors, 0).place(3_000_000),
    ];
    assert_eq!(rt; found, [896, 528, 384, 1_000_000, 16, -64]);
}

// A range that falls, and one whose units are halves of those on the other axis.
fn falling() -> Pair<Range>
    ensures { Both IsRange result }
{
    Pair {
        x: Range {
            least: 8_000_000,
            most: 0,
        },
        y: Range {
            least: 0,
            most: 2_000_000,
        },
    }
}

// Of the 64 units in y, 32 are left over, and half of them lie below the range.
#[test]
fn falling_ranges(rt: HostRuntime) {
    let axis = axis_of(X, &wide(), &Scaling::Anisotropic(falling()), 0);
    let fitting = axis_of(Y, &wide(), &fitted(falling()), 0);
    let found = [
        axis.place(0),
        axis.place(6_000_000),
        axis.coordinate(512),
        fitting.place(1_000_000),
    ];
    assert_eq!(rt; found, [2048, 512, 6_000_000, 512]);
}

// Two grains are 1/128 unit, 7812.5 millionths, and a half rounds up.
#[test]
fn coordinates_are_rounded(rt: HostRuntime) {
    let axis = axis_of(X, &wide(), &Scaling::Anisotropic(eight()), 0);
    assert_eq!(rt; [axis.coordinate(2), axis.coordinate(-2)], [7813, -7812]);
}

#[test]
fn moves(rt: HostRuntime) {
    let axis = unscaled_axis(0);
    let from = axis.coordinate(40);
    let found = [
        axis.moved(from, 500_000, true),
        axis.moved(from, 500_000, false),
    ];
    assert_eq!(rt; found, [3_000_000, 500_000]);
}
