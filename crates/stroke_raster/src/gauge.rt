//! Gauges decide whether a stroke reaches a pixel, and count the tests.
ghost use Rattle.std.specs.Prelude.{◌≡◌, ℕ, ◌+◌, ◌-◌, ◌*◌, ◌<◌, ◌≤◌, ◌^◌, Bool, true, false, cond, get_or};
ghost use Rattle.std.specs.Prelude.{length, min};
ghost use Rattle.plot_page.specs.Segments.{Segment};
ghost use Rattle.plot_page.specs.declared.page.Page.{Page};
ghost use Rattle.plot_page.specs.declared.dots.Dots.{Dots};
ghost use Rattle.plot_page.specs.Resolutions.{columns_of, rows_of};
ghost use Rattle.stroke_raster.specs.Tests.{next_count, reached, MOST_TESTS};
ghost use Rattle.stroke_raster.specs.Covers.{covers};
ghost use Rattle.stroke_raster.specs.Boxes.{in_box, BoxHolds};
ghost use Rattle.stroke_raster.specs.Extents.{AreBoxed};
ghost use Rattle.stroke_raster.specs.Inks.{IsReached};
ghost use Rattle.stroke_raster.specs.Parts.{ArePartInked, IsPart, reached_in};

use crate::beside::ink_beside;
use crate::edges::{MANY, edges_of};
use crate::extent::Extent;
use crate::fill::fill;
use crate::ink::ink_run;
use crate::layout::Layout;
use crate::nearness::near;
use crate::run::run;
use crate::scan::{has_few_columns, has_room, ink_short};
use crate::short::is_short;
use crate::strip::Span;
use crate::trace::{Trace, trace_of};
use plot_page::{Dots, Page, Stroke};
use std::marker::Model;

/// Decides which pixels a stroke reaches, and counts how often it was asked.
pub trait Gauge {
    // Whether a stroke reaches a pixel, named by its row and its column.
    ghost reaches: { Self → Segment → Page → Dots → ℕ → ℕ → Bool };

    // How many tests were made.
    ghost count: { Self → ℕ };

    /// Whether the stroke reaches the pixel. The count rises by one; at 2^64 - 1 it stays.
    fn meets(&mut self, stroke: &Stroke, page: &Page, dots: Dots, row: u32, column: u32) -> bool
        requires row_in { row < rows_of page.now dots }
        requires column_in { column < columns_of page.now dots }
        ensures answer { result ≡ reaches self.old stroke.now page.now dots row column }
        ensures same { reaches self.new ≡ reaches self.old }
        ensures raised { count self.new ≡ next_count (count self.old) };

    /// How many tests were made.
    fn tests(&self) -> u64
        ensures { result ≡ count self.now };

    /// Does nothing. Its contract is a law of the gauge: a stroke reaches only pixels of its box.
    fn keeps_to_boxes(&self)
        ensures { BoxHolds (reaches self.now) };

    /// Paints a part of a row of a stroke's box: each cell whose pixel the stroke reaches becomes the
    /// position; the first cell is that of column `from`. The count rises by at least the pixels
    /// reached and at most the cells, or to 2^64 - 1, where it stays. Returns a span of the cells,
    /// outside which none is reached.
    #[inline(always)]
    fn paint(
        &mut self,
        trace: &Trace<'_>,
        page: &Page,
        row: u32,
        from: u32,
        position: u32,
        cells: &mut [u32],
    ) -> Span
        requires row_in { row < rows_of page.now trace.now.dots }
        requires columns_in { from + length cells.old ≤ columns_of page.now trace.now.dots }
        requires boxed { (i : ℕ) → i < length cells.old →
            in_box trace.now.stroke.now page.now trace.now.dots row (from + i) ≡ true }
        ensures cells { (i : ℕ) → i < length cells.old → get_or cells.new i 0 ≡ cond
            (reaches self.old trace.now.stroke.now page.now trace.now.dots row (from + i)) position
            (get_or cells.old i 0) }
        ensures same { reaches self.new ≡ reaches self.old }
        ensures least { min (count self.old + reached
            (reaches self.old trace.now.stroke.now page.now trace.now.dots row) from
            (length cells.old)) MOST_TESTS ≤ count self.new }
        ensures most { count self.new ≤ count self.old + length cells.old }
        ensures grows { count self.old ≤ count self.new }
        ensures order { result.low ≤ result.end }
        ensures high { result.end ≤ length cells.old }
        ensures before { (i : ℕ) → i < result.low →
            reaches self.old trace.now.stroke.now page.now trace.now.dots row (from + i) ≡ false }
        ensures after { (i : ℕ) → result.end ≤ i → i < length cells.old →
            reaches self.old trace.now.stroke.now page.now trace.now.dots row (from + i) ≡ false }
    {
        for (i, cell) in cells.iter_mut().enumerate() {
            let old = *cell;
            let is_met = self.meets(trace.stroke, page, trace.dots, row, from + i as u32);
            *cell = if is_met { position } else { old };
        }
        Span {
            low: 0,
            end: cells.len() as u32,
        }
    }

    /// Inks a part of a row of a stroke's box: of `many` pixels from column `from` on, each that the
    /// stroke reaches becomes black. The line has a bit for each pixel of the row. The count rises by
    /// at least the pixels reached and at most `many`, or to 2^64 - 1, where it stays.
    #[inline(always)]
    fn ink(
        &mut self,
        trace: &Trace<'_>,
        page: &Page,
        row: u32,
        from: u32,
        many: u32,
        line: &mut [u8],
    )
        requires row_in { row < rows_of page.now trace.now.dots }
        requires columns_in { from + many ≤ columns_of page.now trace.now.dots }
        requires line_in { from + many ≤ 8 * length line.old }
        requires boxed { (i : ℕ) → i < many →
            in_box trace.now.stroke.now page.now trace.now.dots row (from + i) ≡ true }
        ensures bits { IsReached
            (reaches self.old trace.now.stroke.now page.now trace.now.dots row) from many line.old line.new }
        ensures same { reaches self.new ≡ reaches self.old }
        ensures least { min (count self.old + reached
            (reaches self.old trace.now.stroke.now page.now trace.now.dots row) from many) MOST_TESTS
            ≤ count self.new }
        ensures most { count self.new ≤ count self.old + many }
        ensures grows { count self.old ≤ count self.new }
    {
        for i in 0..many {
            let is_met = self.meets(trace.stroke, page, trace.dots, row, from + i);
            let low = from + i;
            let end = if is_met { low + 1 } else { low };
            ink_run(line, Span { low, end });
        }
    }

    /// Inks a part of a stroke's box by one call of `ink` for each row: each pixel of the rows of `part`
    /// and of these columns that the stroke reaches becomes black. The count rises by at least the pixels
    /// reached and at most those of the part, or to 2^64 - 1, where it stays.
    #[inline(always)]
    fn ink_each(
        &mut self,
        trace: &Trace<'_>,
        page: &Page,
        part: Span,
        columns: Span,
        layout: Layout,
        bits: &mut [u8],
    )
        requires part { IsPart page.now trace.now.dots layout part columns }
        requires stride_small { layout.stride ≤ 2 ^ 20 }
        requires size { length bits.old ≡ layout.rows * layout.stride }
        requires boxed { AreBoxed trace.now.stroke.now page.now trace.now.dots part columns }
        ensures size { length bits.new ≡ length bits.old }
        ensures bits { ArePartInked (reaches self.old trace.now.stroke.now page.now trace.now.dots) layout
            part columns bits.old bits.new }
        ensures same { reaches self.new ≡ reaches self.old }
        ensures least { min (count self.old + reached_in
            (reaches self.old trace.now.stroke.now page.now trace.now.dots) part columns) MOST_TESTS
            ≤ count self.new }
        ensures most { count self.new ≤ count self.old + (part.end - part.low) * (columns.end - columns.low) }
        ensures grows { count self.old ≤ count self.new }
    {
        let many = columns.end - columns.low;
        for row in part.low..part.end {
            let start = (row - layout.first) as usize * layout.stride as usize;
            let line = &mut bits[start..];
            self.ink(trace, page, row, columns.low, many, line);
        }
    }

    /// Inks a part of a stroke's box, as `ink_each` does. A gauge that knows more of its strokes may do it
    /// in another way.
    #[inline(always)]
    fn ink_rows(
        &mut self,
        stroke: &Stroke,
        page: &Page,
        dots: Dots,
        part: Span,
        columns: Span,
        layout: Layout,
        bits: &mut [u8],
    )
        requires part { IsPart page.now dots layout part columns }
        requires stride_small { layout.stride ≤ 2 ^ 20 }
        requires size { length bits.old ≡ layout.rows * layout.stride }
        requires boxed { AreBoxed stroke.now page.now dots part columns }
        ensures size { length bits.new ≡ length bits.old }
        ensures bits { ArePartInked (reaches self.old stroke.now page.now dots) layout part columns
            bits.old bits.new }
        ensures same { reaches self.new ≡ reaches self.old }
        ensures least { min (count self.old + reached_in
            (reaches self.old stroke.now page.now dots) part columns) MOST_TESTS ≤ count self.new }
        ensures most { count self.new ≤ count self.old + (part.end - part.low) * (columns.end - columns.low) }
        ensures grows { count self.old ≤ count self.new }
    {
        let box_part = Extent {
            rows: part,
            columns,
        };
        let trace = trace_of(stroke, dots, box_part.is_small());
        self.ink_each(&trace, page, part, columns, layout, bits);
    }
}

/// The gauge that asks `near`.
#[derive(Debug, Drop)]
pub struct Exact {
    tests: u64,
}

impl Model for Exact {
    ghost use Rattle.std.specs.Prelude.{ℕ};

    // How many tests it made.
    ghost Value = { ℕ };

    ghost view = { λ g. g.tests };
}

impl Exact {
    /// A gauge that has made no test.
    pub fn new() -> Exact
        ensures { result ≡ 0 }
    {
        Exact { tests: 0 }
    }

    // Inks many rows of a stroke's box. Where only the long sides of the stroke bound it, its edges lead
    // from row to row.
    #[inline(never)]
    fn ink_long(
        &mut self,
        stroke: &Stroke,
        page: &Page,
        dots: Dots,
        part: Span,
        columns: Span,
        layout: Layout,
        bits: &mut [u8],
    )
        requires part { IsPart page.now dots layout part columns }
        requires stride_small { layout.stride ≤ 2 ^ 20 }
        requires size { length bits.old ≡ layout.rows * layout.stride }
        requires boxed { AreBoxed stroke.now page.now dots part columns }
        ensures size { length bits.new ≡ length bits.old }
        ensures bits { ArePartInked (covers stroke.now page.now dots) layout part columns
            bits.old bits.new }
        ensures least { min (self.old + reached_in (covers stroke.now page.now dots) part columns) MOST_TESTS
            ≤ self.new }
        ensures most { self.new ≤ self.old + (part.end - part.low) * (columns.end - columns.low) }
        ensures grows { self.old ≤ self.new }
    {
        let trace = trace_of(stroke, dots, false);
        let edges = edges_of(&trace, page, part, columns.low);
        let above = Span {
            low: part.low,
            end: edges.rows.low,
        };
        self.ink_each(&trace, page, above, columns, layout, bits);
        let beside = ink_beside(&trace, page, &edges, columns, layout, bits);
        self.tests = self.tests.saturating_add(beside);
        let below = Span {
            low: edges.rows.end,
            end: part.end,
        };
        self.ink_each(&trace, page, below, columns, layout, bits);
    }
}

impl Gauge for Exact {
    ghost reaches = { λ _ stroke page dots row column. covers stroke page dots row column };

    ghost count = { λ tests. tests };

    #[inline(always)]
    fn meets(&mut self, stroke: &Stroke, page: &Page, dots: Dots, row: u32, column: u32) -> bool {
        if self.tests < u64::MAX {
            self.tests += 1;
        }
        near(stroke, page, dots, row, column)
    }

    // The pixels that a stroke covers in a row form a run, so only its ends are tested.
    #[inline(always)]
    fn paint(
        &mut self,
        trace: &Trace<'_>,
        page: &Page,
        row: u32,
        from: u32,
        position: u32,
        cells: &mut [u32],
    ) -> Span {
        let run = run(trace, page, row, from, cells.len() as u32);
        fill(cells, run, position);
        self.tests = self.tests.saturating_add(u64::from(run.end - run.low));
        run
    }

    // The run of `paint`, as bits.
    #[inline(always)]
    fn ink(
        &mut self,
        trace: &Trace<'_>,
        page: &Page,
        row: u32,
        from: u32,
        many: u32,
        line: &mut [u8],
    ) {
        let run = run(trace, page, row, from, many);
        let black = Span {
            low: from + run.low,
            end: from + run.end,
        };
        ink_run(line, black);
        self.tests = self.tests.saturating_add(u64::from(black.end - black.low));
    }

    // A short stroke in a small box is scanned. The edges of a stroke cost some work of their own, which a few
    // rows do not repay. Each way makes its own numbers: those of a few rows then have no place in memory.
    #[inline(always)]
    fn ink_rows(
        &mut self,
        stroke: &Stroke,
        page: &Page,
        dots: Dots,
        part: Span,
        columns: Span,
        layout: Layout,
        bits: &mut [u8],
    ) {
        if part.end >= part.low + MANY {
            self.ink_long(stroke, page, dots, part, columns, layout, bits);
        } else if has_few_columns(columns)
            && has_room(part, columns, layout)
            && is_short(stroke, dots)
        {
            let tests = ink_short(stroke, page, dots, part, columns, layout, bits);
            self.tests = self.tests.saturating_add(tests);
        } else {
            let trace = trace_of(stroke, dots, false);
            self.ink_each(&trace, page, part, columns, layout, bits);
        }
    }

    fn tests(&self) -> u64 {
        self.tests
    }

    fn keeps_to_boxes(&self) {}
}
