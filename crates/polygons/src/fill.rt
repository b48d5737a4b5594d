//! What fills polygons, line by line.
ghost use Rattle.std.specs.Prelude.{◌≡◌, ◌≤◌, ◌^◌, ◌∷◌, [], IfOk, OnErr, if◌then◌else◌, true, false};
ghost use Rattle.polygons.specs.Fills.{filled, spans};

use crate::edge::Edge;
use crate::lines::{Lines, Rule};
use crate::span::Span;
use crate::spans::add_spans;
use crate::sweep::Sweep;
use std::alloc::{AllocError, Global};
use std::marker::Model;

/// The lines that are left of those that fill polygons. It keeps 16 bytes for each edge that crosses a
/// line, and up to as much again for the edges that cross the present one.
#[derive(Drop)]
pub struct Fill<'a> {
    sweep: Sweep<'a>,
}

impl<'a> Model for Fill<'a> {
    ghost use Rattle.std.specs.Prelude.{List};
    ghost use Rattle.polygons.specs.declared.span.Span.{Span};

    ghost Value = { List (List Span) };

    ghost use Rattle.polygons.specs.Sweeps.{IsSweep, left};

    ghost view = { λ f. left f.sweep };

    ghost invariant = { λ f. IsSweep f.sweep };
}

impl<'a> Fill<'a> {
    /// What fills the polygons with these edges, their closing edges included.
    ///
    /// Errors: `AllocError` if memory runs out.
    pub fn new(
        alloc: Global,
        edges: &'a [Edge],
        lines: Lines,
        rule: Rule,
    ) -> Result<Fill<'a>, AllocError>
        requires least { 4096 ≤ lines.apart }
        requires most { lines.apart ≤ 2 ^ 40 }
        ensures { IfOk result (λ fill. fill ≡ filled lines rule edges.now) }
    {
        Ok(Fill {
            sweep: Sweep::new(alloc, edges, lines, rule)?,
        })
    }

    /// Replaces `spans` by those of the next line that an edge crosses, in their order along it. `false`
    /// says that no line is left.
    ///
    /// Errors: `AllocError` if memory runs out; the lines that are left are as they were then, and
    /// `spans` may have some of the spans of the next.
    pub fn next_line(&mut self, spans: &mut Vec<Span>) -> Result<bool, AllocError>
        ensures line { IfOk result (λ more. self.old ≡ (if more then spans.new.items ∷ self.new else [])) }
        ensures end { IfOk result (λ more. more ≡ false → self.new ≡ []) }
        ensures none { IfOk result (λ more. more ≡ false → spans.new.items ≡ []) }
        ensures unchanged { OnErr result (self.new ≡ self.old) }
    {
        spans.clear();
        if !self.sweep.skip() {
            return Ok(false);
        }
        self.sweep.begin()?;
        let crossings = self.sweep.crossings()?;
        add_spans(self.sweep.rule, &crossings, spans)?;
        self.sweep.finish();
        Ok(true)
    }
}

/// All spans that fill the polygons with these edges, in the order of the lines.
///
/// Errors: `AllocError` if memory runs out.
#[tactic(auto, unfolding(crate::specs::Fills::spans))]
pub fn all_spans(
    alloc: Global,
    edges: &[Edge],
    lines: Lines,
    rule: Rule,
) -> Result<Vec<Span>, AllocError>
    requires least { 4096 ≤ lines.apart }
    requires most { lines.apart ≤ 2 ^ 40 }
    ensures { IfOk result (λ found. found.items ≡ spans lines rule edges.now) }
{
    let mut fill = Fill::new(alloc, edges, lines, rule)?;
    let mut found = Vec::new(alloc);
    let mut line = Vec::new(alloc);
    'lines: while fill.next_line(&mut line)? {
        found.append(&mut line)?;
    }
    Ok(found)
}
