//! Filling the polygons in the buffer.
ghost use Rattle.std.specs.Prelude.{◌≡◌, ◌≤◌, ◌∷◌, ◌^◌, [], if◌then◌else◌, map, nat_abs, Some, IfOk, IfErr};
ghost use Rattle.polygons.specs.Fills.{filled, spans};
ghost use Rattle.full_plot.specs.Fills as fills;
ghost use Rattle.full_plot.specs.Inking.{IsInk};
ghost use Rattle.full_plot.specs.declared.fills.Ink.TheVariants as ink_of;
ghost use Rattle.full_plot.specs.Lines.{drawn_in_type};
ghost use Rattle.full_plot.specs.Machine.{seen, full_step, Runs, FillBuffer};

use crate::fill_lines::shading_lines;
use crate::plotter::FullPlotter;
use areas::Area;
use full_settings::FillKind;
use hpgl_plot::Stop;
use plot_page::{MOST_STROKES, Stroke};
use polygons::{Buffer, Edge, Fill, Lines, Rule, Span};
use std::alloc::Global;
use std::mem::replace;

/// How a span is drawn.
#[derive(Clone, Copy, Debug)]
pub enum Ink {
    /// As a stroke of this width.
    Width(u32),
    /// As a line in the line type, by the pen's width.
    Line,
}

impl FullPlotter {
    /// FP: fills the polygons by winding or by odd counts. The places in the buffer count as work.
    pub fn fill_polygon(&mut self, by_winding: bool) -> Result<(), Stop>
        ensures { Runs (full_step (seen self.old) (FillBuffer by_winding)) (seen self.new) result }
    {
        let places = self.buffer.places();
        self.work(places);
        if self.fills_nothing() {
            return Ok(());
        }
        self.fill_by_rule(rule_by(by_winding))
    }

    // Fills the polygons as FT says.
    fn fill_by_rule(&mut self, rule: Rule) -> Result<(), Stop>
        ensures { Runs (Some (fills.filled_by (seen self.old).filling.fill.kind rule (seen self.old)))
            (seen self.new) result }
    {
        match self.filling.fill.kind {
            FillKind::Solid => self.fill_solid(rule),
            FillKind::Hatched => self.hatch(rule, 0),
            FillKind::CrossHatched => {
                self.hatch(rule, 0)?;
                self.hatch(rule, 90_000)
            }
            FillKind::Shaded => self.shade(rule),
        }
    }

    // Solid: one area, whose edges are those of the buffer.
    fn fill_solid(&mut self, rule: Rule) -> Result<(), Stop>
        ensures { Runs (Some (fills.solid_filled rule (seen self.old))) (seen self.new) result }
    {
        let first = self.plotter.strokes.len();
        self.ink_edges()?;
        self.add_area(first, rule)
    }

    // The strokes after the first `first` are the edges of an area, if there are any.
    fn add_area(&mut self, first: usize, rule: Rule) -> Result<(), Stop>
        ensures { Runs (Some (fills.with_area first rule (seen self.old))) (seen self.new) result }
    {
        let end = self.plotter.strokes.len();
        if end <= first {
            return Ok(());
        }
        self.areas
            .push(Area { first, end, rule })
            .map_err(|_| Stop::Memory)
    }

    // Lines of 0.35 mm that cover as much as the level says.
    fn shade(&mut self, rule: Rule) -> Result<(), Stop>
        ensures { Runs (Some (fills.shaded rule (seen self.old))) (seen self.new) result }
    {
        let level = self.filling.fill.level;
        if level == 0 {
            return Ok(());
        }
        if level == 100_000_000 {
            return self.fill_solid(rule);
        }
        self.fill_lines(rule, shading_lines(level), Ink::Width(224))
    }

    // Lines at the angle of FT and so much more, in the line type.
    fn hatch(&mut self, rule: Rule, more: i32) -> Result<(), Stop>
        requires { nat_abs more ≤ 90000 }
        ensures { Runs (Some (fills.hatched rule more (seen self.old))) (seen self.new) result }
    {
        let lines = self.hatching_lines(more);
        self.fill_lines(rule, lines, Ink::Line)
    }

    // Fills the polygons in the buffer with lines.
    fn fill_lines(&mut self, rule: Rule, lines: Lines, ink: Ink) -> Result<(), Stop>
        requires ink { IsInk ink }
        requires least { 4096 ≤ lines.apart }
        requires most { lines.apart ≤ 2 ^ 40 }
        ensures { Runs (Some (fills.over_lines ink (seen self.old) rule lines)) (seen self.new) result }
    {
        let buffer = replace(&mut self.buffer, Buffer::new(self.alloc));
        let drawn = self.fill_edges(buffer.edges(), rule, lines, ink);
        self.buffer = buffer;
        drawn
    }

    // Fills the polygons with these edges.
    fn fill_edges(&mut self, edges: &[Edge], rule: Rule, lines: Lines, ink: Ink) -> Result<(), Stop>
        requires ink { IsInk ink }
        requires least { 4096 ≤ lines.apart }
        requires most { lines.apart ≤ 2 ^ 40 }
        ensures { Runs (Some (fills.over_spans ink (seen self.old) (spans lines rule edges.now)))
            (seen self.new) result }
    {
        let mut fill = fill_of(self.alloc, edges, lines, rule)?;
        let mut spans = Vec::new(self.alloc);
        'lines: while next_spans(&mut fill, &mut spans)? {
            self.draw_spans(&spans, ink)?;
            if self.plotter.is_full {
                return Ok(());
            }
        }
        Ok(())
    }

    // Draws spans one after another, until there are too many strokes.
    fn draw_spans(&mut self, spans: &Vec<Span>, ink: Ink) -> Result<(), Stop>
        requires { IsInk ink }
        ensures { Runs (Some (fills.over_spans ink (seen self.old) spans.now.items)) (seen self.new) result }
    {
        for span in spans {
            if self.plotter.is_full {
                return Ok(());
            }
            self.draw_span(*span, ink)?;
        }
        Ok(())
    }

    // Draws the edges of the buffer as strokes of width 0.
    fn ink_edges(&mut self) -> Result<(), Stop>
        ensures { Runs (Some (fills.edges_inked (seen self.old))) (seen self.new) result }
    {
        let buffer = replace(&mut self.buffer, Buffer::new(self.alloc));
        let drawn = self.ink_all(buffer.edges());
        self.buffer = buffer;
        drawn
    }

    fn ink_all(&mut self, edges: &[Edge]) -> Result<(), Stop>
        ensures { Runs (Some (fills.over_spans (ink_of.Width 0) (seen self.old)
            (map fills.edge_span edges.now))) (seen self.new) result }
    {
        for edge in edges {
            if self.plotter.is_full {
                return Ok(());
            }
            let span = Span {
                from: edge.from,
                to: edge.to,
            };
            self.draw_span(span, Ink::Width(0))?;
        }
        Ok(())
    }

    fn draw_span(&mut self, span: Span, ink: Ink) -> Result<(), Stop>
        requires { IsInk ink }
        ensures { Runs (Some (fills.with_span ink (seen self.old) span)) (seen self.new) result }
    {
        let (from, to) = (span.from.spot(), span.to.spot());
        self.ends_in_range(from, to)?;
        match ink {
            Ink::Width(width) => {
                let stroke = self.plotter.unscreened_line(width, from, to);
                self.add_stroke(stroke)
            }
            Ink::Line => {
                let line = self.plotter.line(from, to);
                self.draw_counted(&line)
            }
        }
    }

    // Draws a line in the line type; one that gives no stroke counts as work.
    fn draw_counted(&mut self, line: &Stroke) -> Result<(), Stop>
        ensures { Runs (Some (fills.counted (seen self.old) (drawn_in_type (seen self.old) (line.now ∷ []))))
            (seen self.new) result }
    {
        let before = self.plotter.strokes.len();
        let line_type = self.style.line_type(&self.plotter.state.frame.points);
        self.dash_line(line, &line_type)?;
        if self.plotter.strokes.len() == before {
            self.work(1);
        }
        Ok(())
    }

    // Adds a stroke, if a plot may have one more.
    fn add_stroke(&mut self, stroke: Stroke) -> Result<(), Stop>
        ensures { Runs (Some (fills.with_stroke (seen self.old) stroke)) (seen self.new) result }
    {
        if self.plotter.strokes.len() >= MOST_STROKES {
            self.plotter.is_full = true;
            return Ok(());
        }
        self.plotter.strokes.push(stroke).map_err(|_| Stop::Memory)
    }
}

// By winding, or by odd counts.
fn rule_by(by_winding: bool) -> Rule
    ensures { result ≡ fills.rule_by by_winding }
{
    if by_winding {
        Rule::Winding
    } else {
        Rule::OddCounts
    }
}

// What fills the polygons with these edges.
fn fill_of<'a>(alloc: Global, edges: &'a [Edge], lines: Lines, rule: Rule) -> Result<Fill<'a>, Stop>
    requires least { 4096 ≤ lines.apart }
    requires most { lines.apart ≤ 2 ^ 40 }
    ensures fill { IfOk result (λ fill. fill ≡ filled lines rule edges.now) }
    ensures memory { IfErr result (λ e. e ≡ Stop.Memory) }
{
    Fill::new(alloc, edges, lines, rule).map_err(|_| Stop::Memory)
}

// The spans of the next line, or `false` if none is left.
fn next_spans(fill: &mut Fill<'_>, spans: &mut Vec<Span>) -> Result<bool, Stop>
    ensures line { IfOk result (λ more. fill.old ≡ (if more then spans.new.items ∷ fill.new else [])) }
    ensures memory { IfErr result (λ e. e ≡ Stop.Memory) }
{
    fill.next_line(spans).map_err(|_| Stop::Memory)
}
