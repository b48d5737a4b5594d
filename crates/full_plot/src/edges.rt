//! Drawing the edges of the polygons in the buffer.
ghost use Rattle.std.specs.Prelude.{◌≡◌, ◌∷◌, [], map, Some, IfOk, IfErr};
ghost use Rattle.hpgl_plot.specs.Bounds.{IsInRange};
ghost use Rattle.line_types.specs.LineTypes.{line_shape};
ghost use Rattle.full_plot.specs.Lines.{drawn_in_type, shape_in};
ghost use Rattle.full_plot.specs.Polygons.{edge_line, drawn_edges};
ghost use Rattle.full_plot.specs.Machine.{seen, full_step, Runs, EdgeBuffer};

use crate::plotter::FullPlotter;
use exact::Spot;
use hpgl_plot::Stop;
use line_types::LineType;
use polygons::{Buffer, Edge};
use std::mem::replace;

impl FullPlotter {
    /// EP: the edges of the polygons that are drawn, in the line type. The places in the buffer count as work.
    pub fn edge_polygon(&mut self) -> Result<(), Stop>
        ensures { Runs (full_step (seen self.old) EdgeBuffer) (seen self.new) result }
    {
        let buffer = replace(&mut self.buffer, Buffer::new(self.alloc));
        let drawn = self.draw_edges(buffer.edges());
        self.buffer = buffer;
        let places = self.buffer.places();
        self.work(places);
        drawn
    }

    // Draws the edges that are drawn, in the line type.
    fn draw_edges(&mut self, edges: &[Edge]) -> Result<(), Stop>
        ensures { Runs (Some (drawn_in_type (seen self.old)
            (map (edge_line (seen self.old).core.state) (drawn_edges edges.now)))) (seen self.new) result }
    {
        let line_type = self.style.line_type(&self.plotter.state.frame.points);
        for edge in edges {
            self.draw_edge(*edge, &line_type)?;
        }
        Ok(())
    }

    // Draws an edge in the line type, if it is drawn.
    #[tactic(auto, using(crate::proofs::DrawnLines::none_drawn))]
    fn draw_edge(&mut self, edge: Edge, line_type: &LineType) -> Result<(), Stop>
        requires { line_shape line_type.now ≡ shape_in (seen self.old) }
        ensures { Runs (Some (drawn_in_type (seen self.old)
            (map (edge_line (seen self.old).core.state) (drawn_edges (edge ∷ []))))) (seen self.new) result }
    {
        if !edge.is_drawn {
            return Ok(());
        }
        let (from, to) = (edge.from.spot(), edge.to.spot());
        self.ends_in_range(from, to)?;
        let line = self.plotter.line(from, to);
        self.dash_line(&line, line_type)
    }

    /// Tests the ends of a line of a polygon. They were tested when its places were put into the buffer, so none is refused here;
    /// if one were, the plot would end as it does where memory runs out.
    pub fn ends_in_range(&self, from: Spot, to: Spot) -> Result<(), Stop>
        ensures from_in { IfOk result (λ _. IsInRange self.now.plotter.range from) }
        ensures to_in { IfOk result (λ _. IsInRange self.now.plotter.range to) }
        ensures memory { IfErr result (λ e. e ≡ Stop.Memory) }
    {
        let Ok(()) = self.plotter.begin(from) else {
            return Err(Stop::Memory);
        };
        let Ok(()) = self.plotter.begin(to) else {
            return Err(Stop::Memory);
        };
        Ok(())
    }
}
