//! The bands of a picture: painted and written, one after another.
ghost use Rattle.std.specs.Prelude.{◌≡◌, ℕ, List, ◌+◌, ◌-◌, ◌*◌, ◌^◌, ◌<◌, ◌≤◌, ◌↔◌, IfOk, Err, true, false};
ghost use Rattle.plot_page.specs.declared.dots.TheConstants.{MOST_PIXELS_A_SIDE};
ghost use Rattle.plot_page.specs.Resolutions.{rows_of};
ghost use Rattle.stroke_raster.specs.declared.painter.PaintFault.TheVariants.{Band, Row};
ghost use Rattle.stroke_raster.specs.BandHeights.{is_band_height};
ghost use Rattle.rows.specs.Pictures.{Reach};
ghost use Rattle.rows.specs.Progress.{WritesRows};
ghost use Rattle.rows.specs.declared.scene.Scene.{Scene};

use crate::scene::Scene;
use crate::writing::Broken;
use devices::Sink;
use std::alloc::Global;
use stroke_raster::{Gauge, PaintFault};

/// The most bytes of a band of cells that has more than one row: they fit the processor's second cache.
pub const CELL_ROOM: u32 = 524_288;

/// The most bytes of a band of bits that has more than one row.
pub const BIT_ROOM: u32 = 262_144;

/// Paints the strokes of a picture and writes its rows, band by band.
pub trait Bands<'a>: Sized {
    /// What the rows depend on beside the scene.
    type Ask: Copy;

    // Bands can be begun for this, of this scene.
    ghost can_begin: { Self.Ask → Scene → Type 0 };

    // The bytes of each row of the picture that is asked for, by what a gauge reaches.
    ghost asked_text: { Self.Ask → Scene → Reach → ℕ → List ℕ };

    // How many tests its rows take at most, from one row on, up to another.
    ghost asked_tests: { Self.Ask → Scene → ℕ → ℕ → ℕ };

    // The bytes of each row, by what a gauge reaches.
    ghost row_text: { Self → Reach → ℕ → List ℕ };

    // How many rows the picture has.
    ghost rows: { Self → ℕ };

    // The number of the row that the next band begins with.
    ghost next: { Self → ℕ };

    // The number of the row after the last one that is painted.
    ghost end: { Self → ℕ };

    // How many rows a band has at most.
    ghost height: { Self → ℕ };

    // How many tests the rows that are left take at most.
    ghost tests: { Self → ℕ };

    /// The bands of the picture of a scene, from row `first_row` on, before row `end_row`. They have at most `band_rows` rows
    /// each.
    fn begin(
        alloc: Global,
        ask: Self::Ask,
        scene: Scene<'a>,
        band_rows: u32,
        first_row: u32,
        end_row: u32,
    ) -> Result<Self, PaintFault>
        requires ask { can_begin ask scene }
        requires order { first_row ≤ rows_of scene.page scene.dots → first_row ≤ end_row }
        requires within { end_row ≤ rows_of scene.page scene.dots }
        ensures band { (result ≡ Err Band) ↔ (is_band_height band_rows ≡ false) }
        ensures first { (result ≡ Err Row) ↔ ((is_band_height band_rows ≡ true) × (rows_of scene.entry.page scene.entry.dots < first_row)) }
        ensures text { IfOk result (λ b. row_text b ≡ asked_text ask scene.entry) }
        ensures rows { IfOk result (λ b. rows b ≡ rows_of scene.entry.page scene.entry.dots) }
        ensures next { IfOk result (λ b. next b ≡ first_row) }
        ensures end { IfOk result (λ b. end b ≡ end_row) }
        ensures height { IfOk result (λ b. height b ≤ band_rows) }
        ensures tests { IfOk result (λ b. tests b ≡ asked_tests ask scene.entry first_row end_row) };

    /// The number of the row that the next band begins with.
    fn next_row(&self) -> u32
        ensures next { result ≡ next self.now }
        ensures within { result ≤ end self.now };

    /// The number of the row after the last one that is painted.
    fn end_row(&self) -> u32
        ensures end { result ≡ end self.now }
        ensures within { result ≤ rows self.now }
        ensures most { result ≤ MOST_PIXELS_A_SIDE };

    /// How many rows the picture has.
    fn rows(&self) -> u32
        ensures count { result ≡ rows self.now }
        ensures most { result ≤ MOST_PIXELS_A_SIDE };

    /// Paints the next band, and writes its rows after `done` bytes. Answers how many bytes there are
    /// then. Row `first` is the one that the picture begins with.
    fn write_next<G: Gauge, K: Sink>(
        &mut self,
        first: u32,
        done: u64,
        gauge: &mut G,
        sink: &mut K,
    ) -> Result<u64, Broken>
        requires left { next self.old < end self.old }
        requires sinking { (K.state sink.old).faults < 2 ^ 64 - 1 }
        requires done_in { done ≤ 2 ^ 62 }
        ensures text { row_text self.new ≡ row_text self.old }
        ensures rows { rows self.new ≡ rows self.old }
        ensures some { next self.old < next self.new }
        ensures end { end self.new ≡ end self.old }
        ensures within { next self.new ≤ end self.new }
        ensures most { next self.new ≤ next self.old + height self.old }
        ensures height { height self.new ≡ height self.old }
        ensures writes { WritesRows (row_text self.old (G.reaches gauge.old)) first (next self.old) (next self.new) done
            (K.state sink.old) (K.state sink.new) result }
        ensures small { IfOk result (λ bytes. bytes ≤ done + (next self.new - next self.old) * 33554432) }
        ensures same { G.reaches gauge.new ≡ G.reaches gauge.old }
        ensures tests { G.count gauge.new + tests self.new ≤ G.count gauge.old + tests self.old };
}

/// The height of bands whose rows have `size` bytes each: as many rows as lie in `room` bytes, at least one and at most
/// `most`. A height out of range stays as it is, so that it is refused.
pub fn height_within(most: u32, size: u32, room: u32) -> u32
    ensures range { is_band_height result ≡ is_band_height most }
    ensures most { result ≤ most }
    ensures room { is_band_height most ≡ true → 1 < result → result * size ≤ room }
{
    if most < 1 || most > 4096 {
        return most;
    }
    (room / size.max(1)).max(1).min(most)
}
