//! A canvas in black and white: a pixel is a bit.
ghost use Rattle.std.specs.Prelude.{ℕ, ◌<◌, ◌^◌, length, get_or, min};
ghost use Rattle.stroke_raster.specs.Inks.{ink_at};

use crate::canvas::Canvas;
use crate::extent::extent_of;
use crate::gauge::Gauge;
use crate::ink::ink_run;
use crate::layout::Layout;
use crate::strip::Span;
use bit_rows::packed_length;
use plot_page::{Dots, Page, Stroke};
use std::alloc::{AllocError, Global};

/// Rows of bytes, whose bits are 1 for the pixels that show a stroke, the leftmost pixel in the highest bit
/// of the first byte.
#[derive(Drop)]
pub struct Bits {
    /// How many columns of pixels there are.
    pub(crate) columns: u32,
    /// How many rows there are.
    pub(crate) rows: u32,
    /// How many bytes a row has.
    pub(crate) stride: u32,
    /// The bytes, row after row.
    pub(crate) bytes: Vec<u8>,
}

impl Canvas for Bits {
    ghost use Rattle.std.specs.Prelude.{refl};
    ghost use Rattle.std.specs.Prelude.{map};
    ghost use Rattle.bit_rows.specs.Bits.{packed};
    ghost use Rattle.stroke_raster.specs.Canvases.{AreBits};
    ghost use Rattle.stroke_raster.specs.Rows.{split_rows};

    ghost height = { λ b. b.rows };

    ghost width = { λ b. b.columns };

    ghost pixel = { λ b r k. ink_at b.stride b.bytes.items r k };

    ghost mark = { λ position. min 1 position };

    ghost lent = { λ b count. split_rows b.stride count b.bytes.items };

    ghost lends = { λ rows. map packed rows };

    ghost is_sound = { λ b. AreBits b.columns b.rows b.stride b.bytes.items };

    fn of_size(alloc: Global, columns: u32, rows: u32) -> Result<Bits, AllocError> {
        let stride = packed_length(columns as usize) as u32;
        let bytes = vec![in alloc; 0u8; rows as usize * stride as usize]?;
        Ok(Bits {
            columns,
            rows,
            stride,
            bytes,
        })
    }

    fn clear(&mut self, rows: u32) {
        self.rows = rows;
        self.bytes.truncate(rows as usize * self.stride as usize);
        self.bytes.as_mut_slice().fill(0);
    }

    fn paint<G: Gauge>(
        &mut self,
        gauge: &mut G,
        stroke: &Stroke,
        page: &Page,
        dots: Dots,
        first: u32,
        position: u32,
    ) -> u32 {
        let extent = extent_of(stroke, page, dots);
        if extent.columns.low == extent.columns.end {
            return extent.rows.end;
        }
        let end = extent.rows.end.min(first + self.rows).max(first);
        let low = extent.rows.low.max(first).min(end);
        let layout = Layout {
            first,
            rows: self.rows,
            stride: self.stride,
        };
        let part = Span { low, end };
        let bytes = self.bytes.as_mut_slice();
        gauge.ink_rows(stroke, page, dots, part, extent.columns, layout, bytes);
        extent.rows.end
    }

    fn fill(&mut self, row: u32, span: Span, position: u32) {
        let start = row as usize * self.stride as usize;
        ink_run(&mut self.bytes.as_mut_slice()[start..], span);
    }

    fn lends_what_it_shows(&self) {
        are_bytes(self.bytes.as_slice());
    }

    ghost blank = { refl };
}

// Does nothing. Its contract is a law: each byte is below 2^8.
fn are_bytes(bytes: &[u8])
    ensures { (i : ℕ) → i < length bytes.now → get_or bytes.now i 0 < 2 ^ 8 }
{}
