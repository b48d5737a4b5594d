//! A canvas that names strokes: a pixel is the position of the stroke that it shows.
ghost use Rattle.std.specs.Prelude.{◌≡◌, ℕ, ◌+◌, ◌*◌, ◌<◌, ◌≤◌, length, get_or, max, false};
ghost use Rattle.stroke_raster.specs.Spans.{Spanned, holds, none};

use crate::canvas::Canvas;
use crate::extent::extent_of;
use crate::fill::fill;
use crate::gauge::Gauge;
use crate::strip::Span;
use crate::trace::trace_of;
use plot_page::{Dots, Page, Stroke};
use std::alloc::{AllocError, Global};

/// Cells in rows, one for each pixel: the position of the stroke that it shows, counted from 1, or 0.
#[derive(Drop)]
pub struct Cells {
    /// How many columns there are.
    pub(crate) columns: u32,
    /// How many rows there are.
    pub(crate) rows: u32,
    /// For each row, the columns outside which its cells are 0.
    pub(crate) spans: Vec<Span>,
    /// The cells, row after row.
    pub(crate) cells: Vec<u32>,
}

impl Canvas for Cells {
    ghost use Rattle.std.specs.Prelude.{refl};
    ghost use Rattle.stroke_raster.specs.Canvases.{AreCells};
    ghost use Rattle.stroke_raster.specs.Rows.{split_rows};

    ghost height = { λ c. c.rows };

    ghost width = { λ c. c.columns };

    ghost pixel = { λ c r k. get_or c.cells.items (r * c.columns + k) 0 };

    ghost mark = { λ position. position };

    ghost lent = { λ c count. split_rows c.columns count c.cells.items };

    ghost lends = { λ rows. rows };

    ghost is_sound = { λ c. AreCells c.columns c.rows c.spans.items c.cells.items };

    fn of_size(alloc: Global, columns: u32, rows: u32) -> Result<Cells, AllocError> {
        let cells = vec![in alloc; 0u32; rows as usize * columns as usize]?;
        let spans = vec![in alloc; Span { low: 0, end: 0 }; rows as usize]?;
        Ok(Cells {
            columns,
            rows,
            spans,
            cells,
        })
    }

    fn clear(&mut self, rows: u32) {
        self.rows = rows;
        self.spans.truncate(rows as usize);
        self.cells.truncate(rows as usize * self.columns as usize);
        clear_spans(
            self.columns,
            self.spans.as_mut_slice(),
            self.cells.as_mut_slice(),
        );
    }

    fn paint<G: Gauge>(
        &mut self,
        gauge: &mut G,
        stroke: &Stroke,
        page: &Page,
        dots: Dots,
        first: u32,
        position: u32,
    ) -> u32 {
        let extent = extent_of(stroke, page, dots);
        if extent.columns.low == extent.columns.end {
            return extent.rows.end;
        }
        let from = extent.columns.low;
        let upto = extent.columns.end;
        let end = extent.rows.end.min(first + self.rows).max(first);
        let low = extent.rows.low.max(first).min(end);
        let trace = trace_of(stroke, dots, extent.is_small());
        let columns = self.columns as usize;
        let spans = self.spans.as_mut_slice();
        let cells = self.cells.as_mut_slice();
        for row in low..end {
            let at = (row - first) as usize;
            let start = at * columns;
            let line = &mut cells[start + from as usize..start + upto as usize];
            let run = gauge.paint(&trace, page, row, from, position, line);
            let painted = Span {
                low: from + run.low,
                end: from + run.end,
            };
            spans[at] = joined(spans[at], painted);
        }
        extent.rows.end
    }

    fn fill(&mut self, row: u32, span: Span, position: u32) {
        let start = row as usize * self.columns as usize;
        let cells = self.cells.as_mut_slice();
        let line = &mut cells[start + span.low as usize..start + span.end as usize];
        let all = Span {
            low: 0,
            end: span.end - span.low,
        };
        fill(line, all, position);
        let spans = self.spans.as_mut_slice();
        let old = spans[row as usize];
        spans[row as usize] = joined(old, span);
    }

    fn lends_what_it_shows(&self) {}

    ghost blank = { refl };
}

// The least span that holds all that two spans hold.
fn joined(a: Span, b: Span) -> Span
    requires first_order { a.low ≤ a.end }
    requires second_order { b.low ≤ b.end }
    ensures order { result.low ≤ result.end }
    ensures high { result.end ≤ max a.end b.end }
    ensures first { (k : ℕ) → holds result k ≡ false → holds a k ≡ false }
    ensures second { (k : ℕ) → holds result k ≡ false → holds b k ≡ false }
{
    if a.low == a.end {
        return b;
    }
    if b.low == b.end {
        return a;
    }
    Span {
        low: a.low.min(b.low),
        end: a.end.max(b.end),
    }
}

// Makes the cells 0.
fn make_blank(cells: &mut [u32])
    ensures { (q : ℕ) → q < length cells.old → get_or cells.new q 0 ≡ 0 }
{
    for at in 0..cells.len() {
        cells[at] = 0;
    }
}

// Makes the cells in the spans 0, which leaves none that is not, and the spans empty.
fn clear_spans(columns: u32, spans: &mut [Span], cells: &mut [u32])
    requires some { 0 < columns }
    requires wide { length cells.old ≡ length spans.old * columns }
    requires spanned { Spanned columns spans.old cells.old }
    ensures blank { (q : ℕ) → q < length cells.old → get_or cells.new q 0 ≡ 0 }
    ensures empty { (r : ℕ) → r < length spans.old → get_or spans.new r none ≡ none }
{
    for row in 0..spans.len() {
        let span = spans[row];
        let start = row * columns as usize;
        let part = &mut cells[start + span.low as usize..start + span.end as usize];
        make_blank(part);
        spans[row] = Span { low: 0, end: 0 };
    }
}
