//! Arcs through three places, and Bezier curves.
ghost use Rattle.std.specs.Prelude.{◌≡◌, map, IfOk};
ghost use Rattle.hpgl_plot.specs.Bounds.{IsInRange};
ghost use Rattle.hpgl_plot.specs.Frames.{place};
ghost use Rattle.full_settings.specs.CurveParameters.{curve_points};
ghost use Rattle.full_plot.specs.Curves as steps;
ghost use Rattle.full_plot.specs.Machine.{seen, run, Runs, Curve};

use crate::plotter::FullPlotter;
use curves::{arc_places, bezier_places};
use exact::Spot;
use full_settings::{ArcPoints, CurvePoints, Point, next_curve};
use hpgl_plot::{Position, Stop};
use hpgl_text::Numbers;

impl FullPlotter {
    /// AT and RT: an arc through a point to its end.
    pub fn arc_through(&mut self, is_relative: bool, points: ArcPoints) -> Result<(), Stop>
        ensures { Runs (steps.arc_step (seen self.old) is_relative points) (seen self.new) result }
    {
        let start = self.plotter.state.place;
        let through = self.pen_at(is_relative, points.through)?;
        let end = self.pen_at(is_relative, points.to)?;
        let places = arc_places(self.alloc, start, through.place, end.place).map_err(
            |_| Stop::Memory,
        )?;
        self.go_over(places.as_slice(), end)
    }

    /// BZ and BR: a Bezier curve for each six numbers.
    pub fn draw_curves(&mut self, is_relative: bool, numbers: &Numbers<'_>) -> Result<(), Stop>
        ensures { Runs (run (seen self.old) (map (Curve is_relative) (curve_points numbers.now)))
            (seen self.new) result }
    {
        let mut rest = numbers.iter();
        'curves: while let Some(points) = next_curve(&mut rest) {
            self.curve(is_relative, points)?;
        }
        Ok(())
    }

    // A Bezier curve, by two control points and its end.
    fn curve(&mut self, is_relative: bool, points: CurvePoints) -> Result<(), Stop>
        ensures { Runs (steps.curve_step (seen self.old) is_relative points) (seen self.new) result }
    {
        let start = self.plotter.state.place;
        let first = self.pen_at(is_relative, points.first)?;
        let second = self.pen_at(is_relative, points.second)?;
        let end = self.pen_at(is_relative, points.to)?;
        let places = bezier_places(self.alloc, start, first.place, second.place, end.place).map_err(
            |_| Stop::Memory,
        )?;
        self.go_over(places.as_slice(), end)
    }

    /// The pen at a point, if its place is in range.
    pub fn pen_at(&self, is_relative: bool, point: Point) -> Result<Position, Stop>
        ensures value { IfOk result (λ pen. pen ≡ steps.curve_pen (seen self.now) is_relative point) }
        ensures in_range { IfOk result (λ pen. IsInRange self.now.plotter.range pen.place) }
        ensures runs { Runs (steps.point_tested (seen self.now) is_relative point) (seen self.now) result }
    {
        let coordinates = self.plotter.target(is_relative, point.x, point.y);
        let place = self.plotter.place_of(coordinates);
        self.plotter.begin(place)?;
        Ok(Position { place, coordinates })
    }

    // The pen goes over places to its end, where the left margin is then, too.
    fn go_over(&mut self, places: &[Spot], end: Position) -> Result<(), Stop>
        requires in_range { IsInRange self.old.plotter.range end.place }
        requires placed { end.place ≡ place self.old.plotter.page self.old.plotter.state.frame end.coordinates }
        ensures { Runs (steps.gone_over (seen self.old) places.now end) (seen self.new) result }
    {
        self.line_over(places)?;
        self.plotter.arrive(end);
        self.margin = end.place;
        Ok(())
    }
}
