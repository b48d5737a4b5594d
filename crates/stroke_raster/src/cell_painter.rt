//! A painter of cells lends a picture's rows, band by band, in one buffer.
ghost use Rattle.std.specs.Prelude.{◌≡◌, ◌+◌, ◌<◌, ◌≤◌, ◌↔◌, length, min, All, IfSome, IfNone, IsSome};
ghost use Rattle.std.specs.Borrow.{sem};
ghost use Rattle.plot_page.specs.Resolutions.{columns_of, rows_of};
ghost use Rattle.stroke_raster.specs.Tests.{MOST_TESTS};
ghost use Rattle.stroke_raster.specs.Rows.{marked_in_rows};
ghost use Rattle.stroke_raster.specs.Painting.{painted_rows, boxed_pixels, rows_next, stroke_rows};

use crate::band::Band;
use crate::canvas::Canvas;
use crate::cells::Cells;
use crate::gauge::Gauge;
use crate::painter::BandPainter;

/// Paints the strokes of a plot, band by band, from a row on: for each pixel the position of the stroke that it
/// shows.
pub type Painter<'a> = BandPainter<'a, Cells>;

impl<'a> Painter<'a> {
    ghost use Rattle.stroke_raster.specs.Ends.{EndsAs};
    ghost use Rattle.stroke_raster.specs.Bands.{first_of, rows_of_band};

    // The band that was painted last.
    fn band(&self) -> Band<'_>
        ensures first { first_of result ≡ self.now.last.first }
        ensures rows { rows_of_band result ≡ self.now.last.rows }
    {
        let columns = self.canvas.columns;
        let length = self.painted as usize * columns as usize;
        Band::new(
            self.next - self.painted,
            self.painted,
            columns,
            &self.canvas.spans.as_slice()[..self.painted as usize],
            &self.canvas.cells.as_slice()[..length],
        )
    }

    /// The next band, with what its pixels show; `None` once all rows are painted. The gauge's count
    /// rises by at least one for each pixel that would show a stroke if there were no areas, and by at most the pixels that the
    /// selected strokes' boxes have in the band's rows.
    pub fn next_band<G: Gauge>(&mut self, gauge: &mut G) -> Option<Band<'_>>
        ensures* moves { sem 𝓛 (EndsAs ⟦<Cells as Canvas>⟧ self.entry) }
        ensures within { self.old.end ≤ rows_of self.old.page self.old.dots }
        ensures left { IsSome result ↔ (self.old.next < self.old.end) }
        ensures first { IfSome result (λ b. first_of b ≡ self.old.next) }
        ensures rows { IfSome result (λ b. rows_of_band b
            ≡ painted_rows (G.reaches gauge.old) self.old self.old.next (rows_next self.old)) }
        ensures some { IsSome result → 1 ≤ rows_next self.old }
        ensures height { IfSome result (λ b. length (rows_of_band b) ≡ rows_next self.old) }
        ensures width { IfSome result (λ b. All (λ row. length row ≡ columns_of self.old.page self.old.dots)
            (rows_of_band b)) }
        ensures positions { IfSome result (λ b. All (λ row. All (λ position. position ≤ length self.old.strokes) row)
            (rows_of_band b)) }
        ensures same { G.reaches gauge.new ≡ G.reaches gauge.old }
        ensures idle { IfNone result (gauge.new ≡ gauge.old) }
        ensures least { IfSome result (λ _. min (G.count gauge.old + marked_in_rows
            (stroke_rows (G.reaches gauge.old) self.old self.old.next (rows_next self.old))) MOST_TESTS ≤ G.count gauge.new) }
        ensures most { IfSome result (λ _.
            G.count gauge.new ≤ G.count gauge.old + boxed_pixels self.old self.old.next (rows_next self.old)) }
        ensures grows { G.count gauge.old ≤ G.count gauge.new }
    {
        if !self.advance(gauge) {
            return None;
        }
        Some(self.band())
    }
}
