//! What a band's strokes are painted on.
ghost use Rattle.std.specs.Prelude.{◌≡◌, ℕ, ◌+◌, ◌<◌, ◌≤◌, Bool, ◌&&◌, List, IfOk, cond, min, nat_eq};
ghost use Rattle.plot_page.specs.declared.dots.TheConstants.{MOST_PIXELS_A_SIDE};
ghost use Rattle.plot_page.specs.Resolutions.{columns_of, rows_of};
ghost use Rattle.stroke_raster.specs.Boxes.{box_pixels, in_box, BoxHolds};
ghost use Rattle.stroke_raster.specs.Canvases.{Shows};
ghost use Rattle.stroke_raster.specs.Extents.{end_row_of};
ghost use Rattle.stroke_raster.specs.ShownShapes.{rows_at};
ghost use Rattle.stroke_raster.specs.Spans.{holds};
ghost use Rattle.stroke_raster.specs.Tests.{MOST_TESTS, reached_pixels};

use crate::gauge::Gauge;
use crate::strip::Span;
use plot_page::{Dots, Page, Stroke};
use std::alloc::{AllocError, Global};

/// The pixels of a band, over which strokes are painted one after another.
pub trait Canvas: Sized + Drop {
    // How many rows of pixels it has.
    ghost height: { Self → ℕ };

    // How many columns of pixels it has.
    ghost width: { Self → ℕ };

    // What the pixel of a row and a column shows, both counted from 0; 0 if it is blank.
    ghost pixel: { Self → ℕ → ℕ → ℕ };

    // What a pixel shows once the stroke at a position of the list, counted from 1, is painted over it.
    ghost mark: { ℕ → ℕ };

    // A number of its first rows, as they are lent.
    ghost lent: { Self → ℕ → List (List ℕ) };

    // How rows are lent whose pixels show the strokes at these positions.
    ghost lends: { List (List ℕ) → List (List ℕ) };

    // What holds between two calls.
    ghost is_sound: { Self → Type 0 };

    /// A canvas of this many columns and rows.
    fn of_size(alloc: Global, columns: u32, rows: u32) -> Result<Self, AllocError>
        requires some { 0 < columns }
        requires wide { columns ≤ MOST_PIXELS_A_SIDE }
        requires tall { rows ≤ 4096 }
        ensures sound { IfOk result (λ c. is_sound c) }
        ensures height { IfOk result (λ c. height c ≡ rows) }
        ensures width { IfOk result (λ c. width c ≡ columns) };

    /// Makes the first `rows` rows blank, and drops those after them.
    fn clear(&mut self, rows: u32)
        requires sound { is_sound self.old }
        requires enough { rows ≤ height self.old }
        ensures sound { is_sound self.new }
        ensures height { height self.new ≡ rows }
        ensures width { width self.new ≡ width self.old }
        ensures blank { (r k : ℕ) → r < rows → k < width self.old → pixel self.new r k ≡ 0 };

    /// Paints the part of a stroke that lies in the canvas's rows; `first` is the number of the first of these
    /// on the page. Returns the end of the rows of the stroke's box.
    fn paint<G: Gauge>(
        &mut self,
        gauge: &mut G,
        stroke: &Stroke,
        page: &Page,
        dots: Dots,
        first: u32,
        position: u32,
    ) -> u32
        requires sound { is_sound self.old }
        requires rows_in { first + height self.old ≤ rows_of page.now dots }
        requires width { width self.old ≡ columns_of page.now dots }
        requires boxed { BoxHolds (G.reaches gauge.old) }
        requires counted { 1 ≤ position }
        ensures end { result ≡ end_row_of stroke.now page.now dots }
        ensures sound { is_sound self.new }
        ensures height { height self.new ≡ height self.old }
        ensures width { width self.new ≡ width self.old }
        ensures pixels { (r k : ℕ) → r < height self.old → k < width self.old →
            pixel self.new r k ≡ cond (G.reaches gauge.old stroke.now page.now dots (first + r) k)
            (mark position) (pixel self.old r k) }
        ensures same { G.reaches gauge.new ≡ G.reaches gauge.old }
        ensures least { min (G.count gauge.old + reached_pixels (G.reaches gauge.old stroke.now page.now dots)
            first (height self.old) 0 (width self.old)) MOST_TESTS ≤ G.count gauge.new }
        ensures most { G.count gauge.new ≤ G.count gauge.old + box_pixels
            (λ s. in_box s page.now dots) stroke.now first (height self.old) (width self.old) }
        ensures grows { G.count gauge.old ≤ G.count gauge.new };

    /// Paints a span of columns of a row, which counts from 0, as the stroke at a position is painted.
    fn fill(&mut self, row: u32, span: Span, position: u32)
        requires sound { is_sound self.old }
        requires tall { row < height self.old }
        requires order { span.low ≤ span.end }
        requires wide { span.end ≤ width self.old }
        requires counted { 1 ≤ position }
        ensures sound { is_sound self.new }
        ensures height { height self.new ≡ height self.old }
        ensures width { width self.new ≡ width self.old }
        ensures pixels { (r k : ℕ) → r < height self.old → k < width self.old →
            pixel self.new r k ≡ cond (nat_eq r row && holds span k) (mark position) (pixel self.old r k) };

    /// Does nothing. Its contract is a law: rows whose pixels show positions are lent as such rows are.
    fn lends_what_it_shows(&self)
        requires sound { is_sound self.now }
        ensures { (test : ℕ → ℕ → ℕ → Bool) (n first : ℕ) →
            Shows (pixel self.now) mark test n first (height self.now) (width self.now) →
            lent self.now (height self.now) ≡ lends (rows_at test n (width self.now) first (height self.now)) };

    // 0, the position of no stroke, is what a blank pixel shows.
    ghost blank: { mark 0 ≡ 0 };
}
