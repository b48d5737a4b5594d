//! Moves, circles, arcs and curves: lines in the line type, or points of a polygon in polygon mode.
ghost use Rattle.std.specs.Prelude.{◌≡◌, ◌∷◌, []};
ghost use Rattle.plot_settings.specs.Bounds.{IsCircle, IsArc};
ghost use Rattle.plot_settings.specs.Meanings.{Move, Go, DrawCircle, DrawArc};
ghost use Rattle.full_plot.specs.Curves.{drawn_over, lined};
ghost use Rattle.full_plot.specs.Lines.{line_step};
ghost use Rattle.full_plot.specs.Machine.{seen, core_step, Runs};
ghost use Rattle.full_plot.specs.Polygons.{lined_step};

use crate::plotter::FullPlotter;
use exact::Spot;
use hpgl_plot::Stop;
use hpgl_text::Number;
use plot_settings::{Arc, Circle};

impl FullPlotter {
    /// A move to coordinates, which are relative or absolute by the most recent PA or PR.
    pub fn move_to(&mut self, x: Number, y: Number) -> Result<(), Stop>
        ensures { Runs (core_step (seen self.old) (Move x y)) (seen self.new) result }
    {
        let is_relative = self.plotter.state.is_relative;
        self.go(is_relative, x, y)
    }

    /// A move to coordinates, drawn if the pen is down. Then the left margin is where the pen is, and the
    /// symbol is drawn there. In polygon mode the end is a point of the polygon.
    #[inline(always)]
    pub fn go(&mut self, is_relative: bool, x: Number, y: Number) -> Result<(), Stop>
        ensures { Runs (core_step (seen self.old) (Go is_relative x y)) (seen self.new) result }
    {
        self.go_lined(is_relative, x, y)?;
        self.margin = self.plotter.state.place;
        self.mark()
    }

    // The line of a move, or a point of a polygon.
    #[inline(always)]
    fn go_lined(&mut self, is_relative: bool, x: Number, y: Number) -> Result<(), Stop>
        ensures { Runs (lined_step (seen self.old) (Go is_relative x y)) (seen self.new) result }
    {
        if self.context.in_polygon {
            self.trace_move(is_relative, x, y)
        } else {
            self.go_along(is_relative, x, y)
        }
    }

    // The line of a move.
    #[inline(always)]
    fn go_along(&mut self, is_relative: bool, x: Number, y: Number) -> Result<(), Stop>
        ensures { Runs (line_step (seen self.old) (Go is_relative x y)) (seen self.new) result }
    {
        if self.style.is_solid() {
            return self.plotter.go(is_relative, x, y);
        }
        let end = self.plotter.end_of(is_relative, x, y);
        self.draw_over(&[end.place])?;
        self.plotter.arrive(end);
        Ok(())
    }

    /// A circle about the pen, or a polygon in polygon mode.
    pub fn circle(&mut self, circle: Circle) -> Result<(), Stop>
        requires { IsCircle circle }
        ensures { Runs (lined_step (seen self.old) (DrawCircle circle)) (seen self.new) result }
    {
        if self.context.in_polygon {
            return self.trace_circle(circle);
        }
        self.circle_along(circle)
    }

    // The lines of a circle.
    fn circle_along(&mut self, circle: Circle) -> Result<(), Stop>
        requires { IsCircle circle }
        ensures { Runs (line_step (seen self.old) (DrawCircle circle)) (seen self.new) result }
    {
        if self.style.is_solid() {
            return self.plotter.circle(circle);
        }
        let outline = self.plotter.circle_outline(self.alloc, circle)?;
        self.draw_along(outline.start, outline.places.as_slice(), true)
    }

    /// An arc from the pen on, or points of a polygon in polygon mode. Then the left margin is where the pen is.
    pub fn arc(&mut self, is_relative: bool, arc: Arc) -> Result<(), Stop>
        requires { IsArc arc }
        ensures { Runs (core_step (seen self.old) (DrawArc is_relative arc)) (seen self.new) result }
    {
        self.arc_lined(is_relative, arc)?;
        self.margin = self.plotter.state.place;
        Ok(())
    }

    // The lines of an arc, or points of a polygon.
    fn arc_lined(&mut self, is_relative: bool, arc: Arc) -> Result<(), Stop>
        requires { IsArc arc }
        ensures { Runs (lined_step (seen self.old) (DrawArc is_relative arc)) (seen self.new) result }
    {
        if self.context.in_polygon {
            self.trace_arc(is_relative, arc)
        } else {
            self.arc_along(is_relative, arc)
        }
    }

    // The lines of an arc.
    fn arc_along(&mut self, is_relative: bool, arc: Arc) -> Result<(), Stop>
        requires { IsArc arc }
        ensures { Runs (line_step (seen self.old) (DrawArc is_relative arc)) (seen self.new) result }
    {
        if self.style.is_solid() {
            return self.plotter.arc(is_relative, arc);
        }
        let outline = self.plotter.arc_outline(self.alloc, is_relative, arc)?;
        self.draw_over(outline.places.as_slice())?;
        self.plotter.arrive(outline.end);
        Ok(())
    }

    /// The lines from the pen over places, drawn if it is down, or points of a polygon in polygon mode. The pen
    /// stays where it is.
    pub fn line_over(&mut self, places: &[Spot]) -> Result<(), Stop>
        ensures { Runs (lined (seen self.old) places.now) (seen self.new) result }
    {
        if self.context.in_polygon {
            self.trace_over(places)
        } else {
            self.draw_over(places)
        }
    }

    // The same out of polygon mode.
    fn draw_over(&mut self, places: &[Spot]) -> Result<(), Stop>
        ensures { Runs (drawn_over (seen self.old) places.now) (seen self.new) result }
    {
        let start = self.plotter.state.place;
        let draws = self.plotter.state.is_down;
        self.draw_along(start, places, draws)
    }
}
