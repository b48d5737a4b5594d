//! Fills a run of cells.
//!
//! Most runs are a few cells long, and their lengths change from row to row. A loop over single cells
//! would often cost the processor a wrong guess at its end.
ghost use Rattle.std.specs.Prelude.{◌≤◌, ◌+◌, length};
ghost use Rattle.stroke_raster.specs.Filling.{IsFilled};

use crate::strip::Span;

// A run of at least this many cells is filled by a loop that the compiler makes fast.
const MANY: u32 = 32;

/// Writes a position into the cells of a span.
#[inline(always)]
pub fn fill(cells: &mut [u32], span: Span, position: u32)
    requires order { span.low ≤ span.end }
    requires inside { span.end ≤ length cells.old }
    ensures { IsFilled span.low span.end position cells.old cells.new }
{
    let count = span.end - span.low;
    if count >= MANY {
        fill_each(cells, span, position);
    } else if count >= 4 {
        fill_fours(cells, span, position);
    } else if count > 0 {
        fill_few(cells, span, position);
    }
}

// Fills many cells.
#[inline(always)]
fn fill_each(cells: &mut [u32], span: Span, position: u32)
    requires order { span.low ≤ span.end }
    requires inside { span.end ≤ length cells.old }
    ensures { IsFilled span.low span.end position cells.old cells.new }
{
    for at in span.low..span.end {
        cells[at as usize] = position;
    }
}

// Fills four or more cells, four at a time; the last four may overlap those before.
#[inline(always)]
fn fill_fours(cells: &mut [u32], span: Span, position: u32)
    requires four { span.low + 4 ≤ span.end }
    requires inside { span.end ≤ length cells.old }
    ensures { IsFilled span.low span.end position cells.old cells.new }
{
    let last = span.end - 4;
    let mut at = span.low;
    'fours: while at < last {
        fill_four(cells, at, position);
        at += 4;
    }
    fill_four(cells, last, position);
}

// Fills the four cells from one on.
#[inline(always)]
fn fill_four(cells: &mut [u32], at: u32, position: u32)
    requires { at + 4 ≤ length cells.old }
    ensures { IsFilled at (at + 4) position cells.old cells.new }
{
    let at = at as usize;
    cells[at] = position;
    cells[at + 1] = position;
    cells[at + 2] = position;
    cells[at + 3] = position;
}

// Fills one to three cells: the first, the middle and the last.
#[inline(always)]
fn fill_few(cells: &mut [u32], span: Span, position: u32)
    requires one { span.low + 1 ≤ span.end }
    requires three { span.end ≤ span.low + 3 }
    requires inside { span.end ≤ length cells.old }
    ensures { IsFilled span.low span.end position cells.old cells.new }
{
    cells[span.low as usize] = position;
    cells[(span.low + (span.end - span.low) / 2) as usize] = position;
    cells[span.end as usize - 1] = position;
}
