//! Figures that are the only polygon in the buffer then: rectangles and wedges, edged or filled.
ghost use Rattle.std.specs.Prelude.{◌≡◌, ◌∷◌, ◌++◌, [], pos, ◌+ℤ◌, IfOk, IfErr, true};
ghost use Rattle.plot_arc.specs.Arcs.{turn_after};
ghost use Rattle.plot_settings.specs.Bounds.{IsCorner};
ghost use Rattle.plot_settings.specs.Meanings.{Edge};
ghost use Rattle.full_settings.specs.PolygonParameters.{IsWedge};
ghost use Rattle.full_plot.specs.Lines.{drawn_along};
ghost use Rattle.full_plot.specs.Machine.{seen, full_step, Runs, Rectangle, WedgeEdge, WedgeFill};
ghost use Rattle.full_plot.specs.Polygons.{edge_step, only_figure, with_buffer};
ghost use Rattle.full_plot.specs.Wedges as wedges;

use crate::plotter::FullPlotter;
use exact::Spot;
use full_settings::Wedge;
use hpgl_plot::Stop;
use plot_arc::{turn, turn_count};
use plot_settings::Corner;

impl FullPlotter {
    /// EA and ER: the edge of a rectangle.
    pub fn edge(&mut self, is_relative: bool, corner: Corner) -> Result<(), Stop>
        requires { IsCorner corner }
        ensures { Runs (edge_step (seen self.old) (Edge is_relative corner.x corner.y)) (seen self.new) result }
    {
        let start = self.plotter.state.place;
        let corners = self.plotter.corners(is_relative, corner);
        self.draw_figure(start, &corners)
    }

    /// RA and RR: a filled rectangle.
    pub fn fill_rectangle(&mut self, is_relative: bool, corner: Corner) -> Result<(), Stop>
        requires { IsCorner corner }
        ensures { Runs (full_step (seen self.old) (Rectangle is_relative corner)) (seen self.new) result }
    {
        let start = self.plotter.state.place;
        let corners = self.plotter.corners(is_relative, corner);
        self.keep_figure(start, &corners)?;
        self.fill_polygon(false)
    }

    /// EW: the edge of a wedge.
    pub fn edge_wedge(&mut self, wedge: Wedge) -> Result<(), Stop>
        requires { IsWedge wedge }
        ensures { Runs (full_step (seen self.old) (WedgeEdge wedge)) (seen self.new) result }
    {
        let places = self.wedge_places(wedge)?;
        let [first, rest @ ..] = places.as_slice() else {
            return Ok(());
        };
        self.draw_figure(*first, rest)
    }

    /// WG: a filled wedge.
    pub fn fill_wedge(&mut self, wedge: Wedge) -> Result<(), Stop>
        requires { IsWedge wedge }
        ensures { Runs (full_step (seen self.old) (WedgeFill wedge)) (seen self.new) result }
    {
        let places = self.wedge_places(wedge)?;
        let [first, rest @ ..] = places.as_slice() else {
            return Ok(());
        };
        self.keep_figure(*first, rest)?;
        self.fill_polygon(false)
    }

    // Draws lines along places, which are the only polygon in the buffer then.
    fn draw_figure(&mut self, start: Spot, places: &[Spot]) -> Result<(), Stop>
        ensures { Runs (with_buffer (only_figure (start ∷ places.now))
            (drawn_along (seen self.old) true (start ∷ places.now))) (seen self.new) result }
    {
        self.draw_along(start, places, true)?;
        self.keep_figure(start, places)
    }

    // The places of a wedge; a whole turn is without the pen's.
    fn wedge_places(&self, wedge: Wedge) -> Result<Vec<Spot>, Stop>
        requires { IsWedge wedge }
        ensures places { IfOk result
            (λ places. places.items ≡ wedges.wedge_places self.now.plotter.page self.now.plotter.state wedge) }
        ensures memory { IfErr result (λ e. e ≡ Stop.Memory) }
    {
        let mut places = Vec::new(self.alloc);
        if wedge.sweep.unsigned_abs() == 360_000 {
            self.go_round(wedge, &mut places)?;
            return Ok(places);
        }
        let pen = self.plotter.state.place;
        push(&mut places, pen)?;
        self.go_round(wedge, &mut places)?;
        push(&mut places, pen)?;
        Ok(places)
    }

    // Adds the places of the ends of a wedge's chords, from the first point on.
    fn go_round(&self, wedge: Wedge, places: &mut Vec<Spot>) -> Result<(), Stop>
        requires { IsWedge wedge }
        ensures places { IfOk result (λ _. places.new.items
            ≡ places.old.items ++ wedges.round_places self.now.plotter.page self.now.plotter.state wedge) }
        ensures memory { IfErr result (λ e. e ≡ Stop.Memory) }
    {
        for k in 0..turn_count(wedge.chord, wedge.sweep) + 1 {
            let place = self
                .plotter
                .place_about(wedge.radius, wedge_angle(wedge, k));
            push(places, place)?;
        }
        Ok(())
    }
}

fn push(places: &mut Vec<Spot>, place: Spot) -> Result<(), Stop>
    ensures places { IfOk result (λ _. places.new.items ≡ places.old.items ++ place ∷ []) }
    ensures memory { IfErr result (λ e. e ≡ Stop.Memory) }
{
    places.push(place).map_err(|_| Stop::Memory)
}

// The angle of the end of a wedge's k-th chord, in thousandths of a degree.
fn wedge_angle(wedge: Wedge, k: u32) -> i64
    requires { IsWedge wedge }
    ensures { result ≡ pos wedge.start +ℤ turn_after wedge.chord wedge.sweep k }
{
    i64::from(wedge.start) + turn(wedge.chord, wedge.sweep, k)
}
