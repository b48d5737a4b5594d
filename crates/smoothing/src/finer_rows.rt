//! The rows of cells of a finer picture.
ghost use Rattle.std.specs.Prelude.{ℕ, ◌<◌, ◌≤◌, ◌^◌, length, get_or, take, []};
ghost use Rattle.stroke_raster.specs.Bands.{rows_of_band};
ghost use Rattle.smoothing.specs.Cells.{cells_of};

use stroke_raster::{Band, Span};

/// Rows of cells of a finer picture.
pub trait FinerRows {
    ghost use Rattle.std.specs.Prelude.{◌≡◌, ℕ, ◌<◌, ◌≤◌, List, [], length, get_or};

    /// The cells of each row.
    ghost finer: { Self → List (List ℕ) };

    /// How many rows there are.
    fn count(&self) -> u32
        ensures { result ≡ length (finer self.now) };

    /// The cells of a row.
    fn cells(&self, row: u32) -> &[u32]
        requires { row < length (finer self.now) }
        ensures { result.now ≡ get_or (finer self.now) row [] };

    /// A span of the columns of a row: outside it the cells are 0.
    fn columns(&self, row: u32) -> Span
        requires { row < length (finer self.now) }
        ensures order { result.low ≤ result.end }
        ensures high { result.end ≤ length (get_or (finer self.now) row []) }
        ensures before { (k : ℕ) → k < result.low → get_or (get_or (finer self.now) row []) k 0 ≡ 0 }
        ensures after { (k : ℕ) → result.end ≤ k → get_or (get_or (finer self.now) row []) k 0 ≡ 0 };
}

impl<'b> FinerRows for Band<'b> {
    ghost finer = { rows_of_band };

    fn count(&self) -> u32 {
        self.rows()
    }

    fn cells(&self, row: u32) -> &[u32] {
        self.row(row)
    }

    fn columns(&self, row: u32) -> Span {
        self.span(row)
    }
}

/// The first rows of some.
#[derive(Clone, Copy)]
pub struct CellRows<'b> {
    pub rows: &'b [Vec<u32>],
    pub count: u32,
    pub ghost within: { count ≤ length rows.now },
    pub ghost narrow: { (k : ℕ) → k < count → length (get_or (cells_of rows.now) k []) < 2 ^ 32 },
}

impl<'b> FinerRows for CellRows<'b> {
    ghost finer = { λ rows. take rows.count (cells_of rows.rows.now) };

    fn count(&self) -> u32 {
        self.count
    }

    fn cells(&self, row: u32) -> &[u32] {
        self.rows[row as usize].as_slice()
    }

    fn columns(&self, row: u32) -> Span {
        Span {
            low: 0,
            end: self.rows[row as usize].len() as u32,
        }
    }
}
