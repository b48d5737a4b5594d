//! The cells of a row, and the columns outside which it is blank.
ghost use Rattle.std.specs.Prelude.{◌≡◌, ℕ, ◌<◌, ◌≤◌, length, get_or};

use std::marker::Model;

/// The cells of a row: 0, or the position of an ink. A row by `within` costs its span, and little
/// for the columns outside of it. Contracts see the list of the cells.
#[derive(Drop)]
pub struct Cells<'c> {
    pub(crate) cells: &'c [u32],
    pub(crate) span: Span,
}

// The columns from `low` up to but not including `end`.
#[derive(Clone, Copy)]
pub(crate) struct Span {
    pub(crate) low: usize,
    pub(crate) end: usize,
}

impl<'c> Model for Cells<'c> {
    ghost use Rattle.std.specs.Prelude.{ℕ, List};

    ghost Value = { List ℕ };

    ghost use Rattle.picture_out.specs.Spans.{IsBlankOutside};

    ghost view = { λ row. row.cells.now };

    ghost invariant = { λ row. IsBlankOutside row.cells.now row.span.low row.span.end };
}

impl<'c> Cells<'c> {
    /// A whole row.
    pub fn new(cells: &'c [u32]) -> Cells<'c>
        ensures { result ≡ cells.now }
    {
        Cells {
            cells,
            span: Span {
                low: 0,
                end: cells.len(),
            },
        }
    }

    /// A row whose cells are all 0 before column `low` and from column `end` on.
    pub fn within(cells: &'c [u32], low: u32, end: u32) -> Cells<'c>
        requires order { low ≤ end }
        requires high { end ≤ length cells.now }
        requires before { (k : ℕ) → k < length cells.now → k < low → get_or cells.now k 0 ≡ 0 }
        requires after { (k : ℕ) → k < length cells.now → end ≤ k → get_or cells.now k 0 ≡ 0 }
        ensures { result ≡ cells.now }
    {
        Cells {
            cells,
            span: Span {
                low: low as usize,
                end: end as usize,
            },
        }
    }
}
