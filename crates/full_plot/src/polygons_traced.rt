//! Polygon mode: the places that the pen comes to are points of a polygon, and nothing is drawn.
ghost use Rattle.std.specs.Prelude.{◌≡◌, ◌∷◌, [], All, Some, IfOk, IfErr};
ghost use Rattle.hpgl_plot.specs.Bounds.{IsInRange};
ghost use Rattle.plot_page.specs.declared.stroke.TheConstants.{FARTHEST_END};
ghost use Rattle.plot_settings.specs.Bounds.{IsArc, IsCircle};
ghost use Rattle.plot_settings.specs.Meanings.{DrawArc, DrawCircle, Go};
ghost use Rattle.polygons.specs.Buffers.{closed};
ghost use Rattle.full_plot.specs.Curves.{traced_over};
ghost use Rattle.full_plot.specs.Machine.{seen, run, Runs, PolygonBy};
ghost use Rattle.full_plot.specs.Polygons as polygons;
ghost use Rattle.full_plot.specs.Polygons.{figure_kept, trace_step};

use crate::plotter::FullPlotter;
use exact::Spot;
use full_settings::PolygonStep;
use hpgl_plot::Stop;
use hpgl_text::Number;
use plot_settings::{Arc, Circle};
use polygons::{Buffer, Place};

impl FullPlotter {
    /// PM: polygon mode begins with an empty buffer and the pen's place, or a polygon is closed.
    pub fn set_polygon(&mut self, step: PolygonStep) -> Result<(), Stop>
        ensures { Runs (run (seen self.old) (PolygonBy step ∷ [])) (seen self.new) result }
    {
        if step == PolygonStep::Begin {
            self.buffer.clear();
            self.buffer.open(Place::new(self.plotter.state.place));
            return Ok(());
        }
        close(&mut self.buffer, self.plotter.state.is_down)
    }

    /// A move in polygon mode.
    pub fn trace_move(&mut self, is_relative: bool, x: Number, y: Number) -> Result<(), Stop>
        ensures { Runs (trace_step (seen self.old) (Go is_relative x y)) (seen self.new) result }
    {
        let end = self.plotter.end_of(is_relative, x, y);
        self.reach(&[end.place])?;
        self.plotter.arrive(end);
        Ok(())
    }

    /// An arc in polygon mode: its points follow the pen's place.
    pub fn trace_arc(&mut self, is_relative: bool, arc: Arc) -> Result<(), Stop>
        requires { IsArc arc }
        ensures { Runs (trace_step (seen self.old) (DrawArc is_relative arc)) (seen self.new) result }
    {
        let outline = self.plotter.arc_outline(self.alloc, is_relative, arc)?;
        self.trace_over(outline.places.as_slice())?;
        self.plotter.arrive(outline.end);
        Ok(())
    }

    /// A circle in polygon mode: a polygon of its own.
    pub fn trace_circle(&mut self, circle: Circle) -> Result<(), Stop>
        requires { IsCircle circle }
        ensures { Runs (trace_step (seen self.old) (DrawCircle circle)) (seen self.new) result }
    {
        let is_down = self.plotter.state.is_down;
        let outline = self.plotter.circle_outline(self.alloc, circle)?;
        let places = outline.places.as_slice();
        self.plotter.travel(outline.start, places, false)?;
        close(&mut self.buffer, is_down)?;
        put_figure(&mut self.buffer, outline.start, places)
    }

    /// Places of a curve in polygon mode, which follow the pen's place. It stays where it is.
    pub fn trace_over(&mut self, places: &[Spot]) -> Result<(), Stop>
        ensures { Runs (traced_over (seen self.old) places.now) (seen self.new) result }
    {
        let start = Place::new(self.plotter.state.place);
        self.buffer.open(start);
        self.reach(places)
    }

    // The places to which the pen comes are further points of the polygon.
    fn reach(&mut self, places: &[Spot]) -> Result<(), Stop>
        ensures { Runs (polygons.reached (seen self.old) places.now) (seen self.new) result }
    {
        let start = self.plotter.state.place;
        let is_down = self.plotter.state.is_down;
        self.plotter.travel(start, places, false)?;
        reach_places(&mut self.buffer, places, is_down)
    }

    /// These places are the only polygon in the buffer.
    pub fn keep_figure(&mut self, start: Spot, places: &[Spot]) -> Result<(), Stop>
        ensures { Runs (figure_kept (seen self.old) (start ∷ places.now)) (seen self.new) result }
    {
        self.plotter.travel(start, places, false)?;
        self.buffer.clear();
        put_figure(&mut self.buffer, start, places)
    }
}

// Places are a polygon of its own, whose edges are drawn.
fn put_figure(buffer: &mut Buffer, start: Spot, places: &[Spot]) -> Result<(), Stop>
    requires start_in { IsInRange FARTHEST_END start }
    requires places_in { All (IsInRange FARTHEST_END) places.now }
    ensures figure { IfOk result (λ _. buffer.new ≡ polygons.figure_in buffer.old (start ∷ places.now)) }
    ensures memory { IfErr result (λ e. e ≡ Stop.Memory) }
{
    buffer.open(Place::new(start));
    reach_places(buffer, places, true)?;
    close(buffer, true)
}

// Closes the polygon that is open.
fn close(buffer: &mut Buffer, is_drawn: bool) -> Result<(), Stop>
    ensures closed { IfOk result (λ _. buffer.new ≡ closed buffer.old is_drawn) }
    ensures memory { IfErr result (λ e. e ≡ Stop.Memory) }
{
    buffer.close(is_drawn).map_err(|_| Stop::Memory)
}

// Places are further points of the polygon.
fn reach_places(buffer: &mut Buffer, places: &[Spot], is_drawn: bool) -> Result<(), Stop>
    requires { All (IsInRange FARTHEST_END) places.now }
    ensures reached { IfOk result (λ _. buffer.new ≡ polygons.reached_all is_drawn buffer.old places.now) }
    ensures memory { IfErr result (λ e. e ≡ Stop.Memory) }
{
    for place in places {
        buffer
            .reach(Place::new(*place), is_drawn)
            .map_err(|_| Stop::Memory)?;
    }
    Ok(())
}
