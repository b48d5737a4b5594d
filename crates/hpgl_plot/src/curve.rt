//! Circles and arcs in coordinates.
ghost use Rattle.std.specs.Prelude.{◌≡◌, ◌<◌, true};
ghost use Rattle.std.specs.Bool.{OnTrue};
ghost use Rattle.hpgl_plot.specs.Bounds.{AreAxes, IsCurve, IsShortCurve};
ghost use Rattle.plot_arc.specs.Bounds.{IsNear};
ghost use Rattle.hpgl_plot.specs.Paths as curves;

use crate::place::place_on;
use crate::state::{Frame, Position};
use crate::turn::turned_place;
use exact::Spot;
use plot_arc::{chord_point, is_short_spot, short_chord_point, turn, turn_count};
use plot_frame::{Axis, Pair};
use plot_page::Page;

/// A circle or an arc: its centre and its first point in millionths of the current unit, its sweep
/// and the angle of a chord in thousandths of a degree.
#[derive(Clone, Copy, Debug)]
pub struct Curve {
    pub centre: Spot,
    pub from: Spot,
    pub sweep: i32,
    pub chord: u32,
}

/// How many chords a curve has.
pub fn chord_count(curve: Curve) -> u32
    requires { 0 < curve.chord }
    ensures { result ≡ curves.chord_count curve }
{
    turn_count(curve.chord, curve.sweep)
}

/// Where the `k`-th chord of a curve ends.
#[inline(always)]
pub fn curve_point(curve: Curve, k: u32) -> Spot
    requires centre { IsNear curve.centre }
    requires from { IsNear curve.from }
    ensures { result ≡ curves.curve_point curve k }
{
    chord_point(curve.centre, curve.from, turn(curve.chord, curve.sweep, k))
}

/// Whether the ends of a curve's chords can be computed in 64 bits.
pub fn is_short_curve(axes: &Pair<Axis>, curve: Curve) -> bool
    ensures { OnTrue result (IsShortCurve axes.now curve) }
{
    axes.x.is_unscaled()
        && axes.y.is_unscaled()
        && is_short_spot(curve.centre)
        && is_short_spot(curve.from)
}

/// Where the pen is at the end of the `k`-th chord of a curve. If the curve is short, which
/// `is_short_curve` tells once for all chords, 64 bits are used, which is faster.
#[inline(always)]
pub fn chord_end(
    page: &Page,
    frame: &Frame,
    axes: &Pair<Axis>,
    curve: Curve,
    k: u32,
    is_short: bool,
) -> Position
    requires axes { AreAxes page.now frame.now axes.now }
    requires curve { IsCurve page.now frame.now curve }
    requires short { is_short ≡ true → IsShortCurve axes.now curve }
    ensures { result ≡ curves.pen_at page.now frame.now (curves.curve_point curve k) }
{
    if is_short {
        short_chord_end(page, frame, axes, curve, k)
    } else {
        long_chord_end(page, frame, axes, curve, k)
    }
}

fn long_chord_end(page: &Page, frame: &Frame, axes: &Pair<Axis>, curve: Curve, k: u32) -> Position
    requires axes { AreAxes page.now frame.now axes.now }
    requires curve { IsCurve page.now frame.now curve }
    ensures { result ≡ curves.pen_at page.now frame.now (curves.curve_point curve k) }
{
    let coordinates = curve_point(curve, k);
    let place = place_on(page, frame, axes, coordinates);
    Position { place, coordinates }
}

#[inline(always)]
fn short_chord_end(page: &Page, frame: &Frame, axes: &Pair<Axis>, curve: Curve, k: u32) -> Position
    requires axes { AreAxes page.now frame.now axes.now }
    requires short { IsShortCurve axes.now curve }
    ensures { result ≡ curves.pen_at page.now frame.now (curves.curve_point curve k) }
{
    let angle = turn(curve.chord, curve.sweep, k);
    let coordinates = short_chord_point(curve.centre, curve.from, angle);
    let right = axes.x.unscaled_place(coordinates.x);
    let above = axes.y.unscaled_place(coordinates.y);
    let place = turned_place(page, frame.rotation, Spot { x: right, y: above });
    Position { place, coordinates }
}
