//! Lines in the line type.
ghost use Rattle.std.specs.Prelude.{◌≡◌, ◌∷◌, [], All, IfOk, IfErr, Some, map};
ghost use Rattle.hpgl_plot.specs.Bounds.{IsInRange};
ghost use Rattle.hpgl_plot.specs.Machine as core;
ghost use Rattle.plot_page.specs.declared.stroke.TheConstants.{FARTHEST_END};
ghost use Rattle.line_types.specs.LineTypes.{line_shape};
ghost use Rattle.full_plot.specs.Lines.{drawn_in_type, drawn_along, shape_in};
ghost use Rattle.full_plot.specs.Machine.{seen, Runs};
ghost use Rattle.full_plot.specs.Dashing.{dash_of, from_of, to_of, IsDash, with_one_more};

use crate::plotter::FullPlotter;
use exact::Spot;
use hpgl_plot::{Plotter, Stop};
use line_types::{Dashes, Line, LineType};
use plot_page::{MOST_STROKES, Stroke};

impl FullPlotter {
    /// Draws the lines from a place to each of these places in turn, in the line type. The pen stays where it is.
    pub fn draw_along(&mut self, start: Spot, places: &[Spot], draws: bool) -> Result<(), Stop>
        ensures { Runs (drawn_along (seen self.old) draws (start ∷ places.now)) (seen self.new) result }
    {
        if self.style.is_solid() {
            return self.plotter.travel(start, places, draws);
        }
        self.dash_along(start, places, draws)
    }

    // The same in dashes.
    fn dash_along(&mut self, start: Spot, places: &[Spot], draws: bool) -> Result<(), Stop>
        ensures { Runs (drawn_along (seen self.old) draws (start ∷ places.now)) (seen self.new) result }
    {
        let line_type = self.style.line_type(&self.plotter.state.frame.points);
        self.plotter.begin(start)?;
        let mut from = start;
        for place in places {
            self.dash_to(from, *place, draws, &line_type)?;
            from = *place;
        }
        Ok(())
    }

    // The line from one place to the next.
    fn dash_to(
        &mut self,
        from: Spot,
        place: Spot,
        draws: bool,
        line_type: &LineType,
    ) -> Result<(), Stop>
        requires shape { line_shape line_type.now ≡ shape_in (seen self.old) }
        requires from_in { IsInRange self.old.plotter.range from }
        ensures in_range { IfOk result (λ _. IsInRange self.new.plotter.range place) }
        ensures runs { Runs (drawn_along (seen self.old) draws (from ∷ (place ∷ []))) (seen self.new) result }
    {
        self.plotter.begin(place)?;
        if draws {
            let line = self.plotter.line(from, place);
            self.dash_line(&line, line_type)?;
        }
        Ok(())
    }

    /// Draws a line, and leaves the run where the pattern goes on.
    pub fn dash_line(&mut self, line: &Stroke, line_type: &LineType) -> Result<(), Stop>
        requires { line_shape line_type.now ≡ shape_in (seen self.old) }
        ensures { Runs (Some (drawn_in_type (seen self.old) (line.now ∷ []))) (seen self.new) result }
    {
        let measured = measured(line);
        if !self.plotter.draws_nothing() {
            keep_dashes(
                &mut self.plotter,
                line,
                line_type.dashes(measured, self.run),
            )?;
        }
        self.run = line_type.run_after(measured, self.run);
        Ok(())
    }
}

// Makes a stroke of each dash of a line, while a plot may have more.
fn keep_dashes(plotter: &mut Plotter, line: &Stroke, dashes: Dashes<'_>) -> Result<(), Stop>
    requires { All IsDash dashes }
    ensures kept { IfOk result (λ _. core.seen plotter.new
        ≡ core.with_strokes (core.seen plotter.old) plotter.old.state (map (dash_of line.now) dashes.entry)) }
    ensures memory { IfErr result (λ e. e ≡ Stop.Memory) }
{
    let mut rest = dashes;
    'dashes: while let Some((from, to)) = rest.next() {
        if plotter.strokes.len() >= MOST_STROKES {
            plotter.is_full = true;
            return Ok(());
        }
        keep(plotter, part(line, from, to))?;
    }
    Ok(())
}

// Keeps a stroke.
fn keep(plotter: &mut Plotter, stroke: Stroke) -> Result<(), Stop>
    ensures kept { IfOk result (λ _. core.seen plotter.new ≡ with_one_more (core.seen plotter.old) stroke) }
    ensures memory { IfErr result (λ e. e ≡ Stop.Memory) }
{
    plotter.strokes.push(stroke).map_err(|_| Stop::Memory)
}

// The stroke of a line, measured.
fn measured(line: &Stroke) -> Line
    ensures from { result.from ≡ from_of line.now }
    ensures to { result.to ≡ to_of line.now }
    ensures from_in { IsInRange FARTHEST_END result.from }
    ensures to_in { IsInRange FARTHEST_END result.to }
{
    let from = Spot {
        x: i128::from(line.ax),
        y: i128::from(line.ay),
    };
    let to = Spot {
        x: i128::from(line.bx),
        y: i128::from(line.by),
    };
    Line::new(from, to)
}

// The part of a line between two places.
fn part(line: &Stroke, from: Spot, to: Spot) -> Stroke
    requires from_in { IsInRange FARTHEST_END from }
    requires to_in { IsInRange FARTHEST_END to }
    ensures { result ≡ dash_of line.now (from, to) }
{
    Stroke {
        pen: line.pen,
        colour: line.colour,
        width: line.width,
        window: line.window,
        ax: from.x as i32,
        ay: from.y as i32,
        bx: to.x as i32,
        by: to.y as i32,
    }
}
