//! The lines that fill polygons: their angle, how far they are apart, and a place that one of them goes through.
ghost use Rattle.std.specs.Prelude.{◌≡◌, ◌≤◌, ◌<◌, ◌*◌, ◌^◌, nat_abs, pos};
ghost use Rattle.plot_frame.specs.Bounds.{IsLine};
ghost use Rattle.hpgl_plot.specs.Strokes.{pen_width};
ghost use Rattle.full_plot.specs.Fills as fills;
ghost use Rattle.full_plot.specs.Machine.{seen};

use crate::plotter::FullPlotter;
use exact::{Spot, rounded};
use full_settings::diagonal_by;
use line_types::Length;
use plot_frame::Axis;
use plot_settings::Rotation;
use polygons::{Lines, Place};

// How far lines are apart at least, a plotter unit, and at most, in ticks of 1/256 grain.
const LEAST_DISTANCE: i128 = 4_096;

const MOST_DISTANCE: i128 = 1_099_511_627_776;

impl FullPlotter {
    /// Hatching: lines at the angle of FT and so much more, as RO turns them.
    pub fn hatching_lines(&self, more: i32) -> Lines
        requires { nat_abs more ≤ 90000 }
        ensures lines { result ≡ fills.hatching_lines (seen self.now) more }
        ensures least { 4096 ≤ result.apart }
        ensures most { result.apart ≤ 2 ^ 40 }
    {
        let angle = signed(self.filling.fill.angle)
            + turn_of(self.plotter.state.frame.rotation)
            + more;
        Lines {
            angle,
            apart: self.hatching_distance(),
            anchor: Place::new(self.filling.anchor),
        }
    }

    // How far lines of hatching are apart, in ticks: no denser than half the pen's width.
    fn hatching_distance(&self) -> u64
        ensures value { result ≡ fills.hatching_distance (seen self.now) }
        ensures least { 4096 ≤ result }
        ensures most { result ≤ 2 ^ 40 }
    {
        cut_distance(self.spacing().max(self.half_width()))
    }

    // Half of the pen's width, in ticks.
    fn half_width(&self) -> i128
        ensures { result ≡ pos (128 * pen_width self.now.plotter.state) }
    {
        let width = self.plotter.width_of(self.plotter.state.pen);
        128 * i128::from(width)
    }

    // The spacing of FT along x, or one percent of the distance from P1 to P2, in ticks.
    fn spacing(&self) -> i128
        ensures { result ≡ fills.spacing_in (seen self.now) }
    {
        let spacing = self.filling.fill.spacing;
        if spacing == 0 {
            let diagonal = diagonal_by(&self.plotter.state.frame.points);
            return i128::from(Length::of_percent(diagonal, 1_000_000).ticks);
        }
        spacing_on(&self.plotter.axes.x, spacing)
    }
}

/// Shading by a level in millionths of a percent: lines at 45 degrees that, 0.35 mm wide, cover as much.
pub fn shading_lines(level: u32) -> Lines
    requires { 0 < level }
    ensures lines { result ≡ fills.shading_lines level }
    ensures least { 4096 ≤ result.apart }
    ensures most { result.apart ≤ 2 ^ 40 }
{
    Lines {
        angle: 45_000,
        apart: shading_distance(level),
        anchor: Place::new(Spot { x: 0, y: 0 }),
    }
}

// A spacing along an axis, in ticks.
fn spacing_on(axis: &Axis, spacing: u64) -> i128
    requires line { IsLine axis.now }
    requires spacing { spacing ≤ 2 ^ 55 }
    ensures { result ≡ fills.spacing_on axis.now spacing }
{
    let product = axis.slope.unsigned_abs() * u128::from(spacing);
    rounded((256 * product) as i128, axis.under)
}

// How far lines of shading are apart, in ticks, by a level in millionths of a percent.
fn shading_distance(level: u32) -> u64
    requires { 0 < level }
    ensures value { result ≡ fills.shading_distance level }
    ensures least { 4096 ≤ result }
    ensures most { result ≤ 2 ^ 40 }
{
    cut_distance(rounded(5_734_400_000_000, i128::from(level)))
}

// A distance, cut to its range.
fn cut_distance(ticks: i128) -> u64
    ensures value { result ≡ fills.cut_distance ticks }
    ensures least { 4096 ≤ result }
    ensures most { result ≤ 2 ^ 40 }
{
    ticks.max(LEAST_DISTANCE).min(MOST_DISTANCE) as u64
}

// An angle that is not below 0.
fn signed(angle: u32) -> i32
    requires { angle < 360000 }
    ensures { result ≡ pos angle }
{
    angle as i32
}

// RO turns hatching.
fn turn_of(rotation: Rotation) -> i32
    ensures value { result ≡ fills.hatching_turn rotation }
    ensures most { nat_abs result ≤ 270000 }
{
    match rotation {
        Rotation::None => 0,
        Rotation::Quarter => 90_000,
        Rotation::Half => 180_000,
        Rotation::ThreeQuarters => 270_000,
    }
}
