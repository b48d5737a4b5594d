//! A painter of bits lends a picture's rows as bytes, band by band, in one buffer.
ghost use Rattle.std.specs.Prelude.{◌≡◌, ◌+◌, ◌*◌, ◌<◌, ◌≤◌, ◌↔◌, length, map, min, IsTrue, false};
ghost use Rattle.plot_page.specs.Resolutions.{columns_of, rows_of};
ghost use Rattle.bit_rows.specs.Bits.{bytes_for, packed};
ghost use Rattle.stroke_raster.specs.Painting.{painted_rows, boxed_pixels, rows_next, stroke_rows, Moves};
ghost use Rattle.stroke_raster.specs.Rows.{marked_in_rows, split_rows};
ghost use Rattle.stroke_raster.specs.Tests.{MOST_TESTS};

use crate::bits::Bits;
use crate::gauge::Gauge;
use crate::painter::BandPainter;

/// Paints the strokes of a plot in black and white, band by band, from a row on: a pixel is a bit, 1 where
/// it shows a stroke. The rows of a band are bytes, as Netpbm's P4 has them.
pub type Inker<'a> = BandPainter<'a, Bits>;

impl<'a> Inker<'a> {
    /// Inks the next band, if a row is left. The gauge's count rises by at least the pixels that would be black if there were no
    /// areas, and at most the pixels that the selected strokes' boxes have in the band's rows, or to 2^64 - 1, where it stays.
    pub fn ink_next<G: Gauge>(&mut self, gauge: &mut G) -> bool
        ensures within { self.old.end ≤ rows_of self.old.page self.old.dots }
        ensures left { IsTrue result ↔ (self.old.next < self.old.end) }
        ensures moves { Moves self.old self.new }
        ensures some { IsTrue result → 1 ≤ rows_next self.old }
        ensures first { IsTrue result → self.new.last.first ≡ self.old.next }
        ensures rows { IsTrue result → self.new.last.rows
            ≡ map packed (painted_rows (G.reaches gauge.old) self.old self.old.next (rows_next self.old)) }
        ensures same { G.reaches gauge.new ≡ G.reaches gauge.old }
        ensures idle { result ≡ false → gauge.new ≡ gauge.old }
        ensures least { IsTrue result → min (G.count gauge.old + marked_in_rows
            (stroke_rows (G.reaches gauge.old) self.old self.old.next (rows_next self.old))) MOST_TESTS
            ≤ G.count gauge.new }
        ensures most { IsTrue result →
            G.count gauge.new ≤ G.count gauge.old + boxed_pixels self.old self.old.next (rows_next self.old) }
        ensures grows { G.count gauge.old ≤ G.count gauge.new }
    {
        self.advance(gauge)
    }

    /// The bytes of the band that was inked last, row after row.
    pub fn bytes(&self) -> &[u8]
        ensures rows { split_rows (bytes_for (columns_of self.now.page self.now.dots)) (length self.now.last.rows)
            result.now ≡ self.now.last.rows }
        ensures size { length result.now
            ≡ length self.now.last.rows * bytes_for (columns_of self.now.page self.now.dots) }
    {
        let length = self.painted as usize * self.canvas.stride as usize;
        &self.canvas.bytes.as_slice()[..length]
    }
}
