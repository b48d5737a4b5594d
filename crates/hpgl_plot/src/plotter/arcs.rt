//! Circles and arcs.
ghost use Rattle.std.specs.Prelude.{◌≡◌, ◌≤◌, ◌^◌, ◌∷◌, nat_abs, IfOk};
ghost use Rattle.plot_arc.specs.Arcs.{chord_point_of};
ghost use Rattle.hpgl_plot.specs.Frames as frames;
ghost use Rattle.hpgl_plot.specs.Paths as curves;
ghost use Rattle.hpgl_plot.specs.Bounds.{IsInRange, IsCurve};
ghost use Rattle.plot_settings.specs.Bounds.{IsCircle, IsArc};
ghost use Rattle.hpgl_plot.specs.Machine.{seen, step, Runs, travelled};
ghost use Rattle.hpgl_plot.specs.Paths.{pen_at, right_of, target};
ghost use Rattle.plot_settings.specs.Meanings.{DrawCircle, DrawArc};

use crate::curve::{Curve, chord_count, chord_end, is_short_curve};
use crate::place::target_of;
use crate::plotter::{Plotter, Stop};
use crate::state::Position;
use exact::Spot;
use plot_arc::chord_point;
use plot_settings::{Arc, Circle};

impl Plotter {
    /// A circle about the pen, which stays where it is.
    pub fn circle(&mut self, circle: Circle) -> Result<(), Stop>
        requires { IsCircle circle }
        ensures { Runs (step (seen self.old) (DrawCircle circle)) (seen self.new) result }
    {
        let curve = self.circle_curve(circle);
        let start = self.place_of(curve.from);
        self.follow_curve(start, curve, true)?;
        Ok(())
    }

    /// An arc from the pen on, which moves to its end.
    pub fn arc(&mut self, is_relative: bool, arc: Arc) -> Result<(), Stop>
        requires { IsArc arc }
        ensures { Runs (step (seen self.old) (DrawArc is_relative arc)) (seen self.new) result }
    {
        let curve = self.arc_curve(is_relative, arc);
        let start = self.state.place;
        let draws = self.state.is_down;
        let end = self.follow_curve(start, curve, draws)?;
        self.arrive(end);
        Ok(())
    }

    /// The place of the point so far on the right of the pen, after a turn about the pen. The radius is in
    /// millionths of the current unit, the angle in thousandths of a degree, counterclockwise if it is above 0.
    pub fn place_about(&self, radius: i64, angle: i64) -> Spot
        requires { nat_abs radius ≤ 2 ^ 55 }
        ensures { result ≡ frames.place self.now.page self.now.state.frame
            (chord_point_of self.now.state.coordinates (right_of self.now.state.coordinates radius) angle) }
    {
        let curve = self.circle_curve(Circle { radius, chord: 1 });
        self.place_of(chord_point(curve.centre, curve.from, angle))
    }

    // A circle in coordinates.
    pub(crate) fn circle_curve(&self, circle: Circle) -> Curve
        requires { IsCircle circle }
        ensures value { result ≡ curves.circle_curve self.now.state.coordinates circle }
        ensures curve { IsCurve self.now.page self.now.state.frame result }
    {
        let centre = self.state.coordinates;
        let right = self.axes.x.moved(centre.x, circle.radius, true);
        Curve {
            centre,
            from: Spot {
                x: right,
                y: centre.y,
            },
            sweep: 360_000,
            chord: circle.chord,
        }
    }

    // An arc in coordinates.
    pub(crate) fn arc_curve(&self, is_relative: bool, arc: Arc) -> Curve
        requires { IsArc arc }
        ensures value { result ≡ curves.arc_curve self.now.state.coordinates
            (target is_relative self.now.state.coordinates arc.x arc.y) arc }
        ensures curve { IsCurve self.now.page self.now.state.frame result }
    {
        let from = self.state.coordinates;
        Curve {
            centre: target_of(&self.axes, from, is_relative, arc.x, arc.y),
            from,
            sweep: arc.sweep,
            chord: arc.chord,
        }
    }

    // Passes the ends of a curve's chords, from a place on, and gives the last of them. The pen stays
    // where it is.
    fn follow_curve(&mut self, start: Spot, curve: Curve, draws: bool) -> Result<Position, Stop>
        requires { IsCurve self.old.page self.old.state.frame curve }
        ensures end { IfOk result
            (λ end. end ≡ pen_at self.old.page self.old.state.frame
            (curves.curve_point curve (curves.chord_count curve))) }
        ensures in_range { IfOk result (λ end. IsInRange self.new.range end.place) }
        ensures runs { Runs (travelled (seen self.old) draws
            (start ∷ curves.curve_places self.old.page self.old.state.frame curve)) (seen self.new) result }
    {
        let page = self.page;
        let frame = self.state.frame;
        let axes = self.axes;
        let is_short = is_short_curve(&axes, curve);
        self.begin(start)?;
        let mut end = Position {
            place: start,
            coordinates: curve.from,
        };
        for k in 0..chord_count(curve) {
            let next = chord_end(&page, &frame, &axes, curve, k + 1, is_short);
            self.reach(end.place, next.place, draws)?;
            end = next;
        }
        Ok(end)
    }
}
