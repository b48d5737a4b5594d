//! Cells packed into bits.
ghost use Rattle.std.specs.Prelude.{◌≡◌, ◌≤◌, ◌+◌, ◌++◌, length, drop};
ghost use Rattle.bit_rows.specs.Bits.{byte_of, bytes_for, packed};
ghost use Rattle.picture_out.specs.Spans.{IsBlankOutside};

use crate::cells::Span;
use bit_rows::packed_length;
use std::simd::prelude::*;

/// Packs each cell into a bit, 1 if the cell is not 0, as in a row of Netpbm's P4: the leftmost cell
/// of eight in the highest bit of a byte, and 0 bits after the last cell. The bytes of `out` after
/// the packed ones stay as they were.
pub fn pack_bits(cells: &[u32], out: &mut [u8])
    requires room { bytes_for (length cells.now) ≤ length out.old }
    ensures packed { out.new ≡ packed cells.now ++ drop (bytes_for (length cells.now)) out.old }
{
    let whole = cells.len() / 8;
    for place in 0..whole {
        out[place] = pack_eight(&cells[8 * place..8 * place + 8]);
    }
    let left = &cells[8 * whole..];
    if !left.is_empty() {
        out[whole] = pack_last(left);
    }
}

// Packs a row as `pack_bits` does. Only the bytes that the span touches need packing; the others
// are 0.
pub(crate) fn pack_row(cells: &[u32], span: Span, out: &mut [u8])
    requires span { IsBlankOutside cells.now span.low span.end }
    requires room { bytes_for (length cells.now) ≤ length out.old }
    ensures packed { out.new ≡ packed cells.now ++ drop (bytes_for (length cells.now)) out.old }
{
    let all = packed_length(cells.len());
    let first = span.low / 8;
    let last = packed_length(span.end);
    let stop = cells.len().min(8 * last);
    out[..first].fill(0);
    pack_bits(&cells[8 * first..stop], &mut out[first..last]);
    out[last..all].fill(0);
}

// Packs fewer than eight cells; the padding is 0.
fn pack_last(cells: &[u32]) -> u8
    requires { length cells.now ≤ 7 }
    ensures { result ≡ byte_of cells.now }
{
    let mut eight = [0; 8];
    eight[..cells.len()].copy_from_slice(cells);
    pack_eight(&eight)
}

// A mask has the first lane in its lowest bit, but P4 wants it in the highest.
#[inline(always)]
fn pack_eight(cells: &[u32]) -> u8
    requires { length cells.now ≡ 8 }
    ensures { result ≡ byte_of cells.now }
{
    let lanes = u32x8::from_slice(cells).reverse();
    lanes.simd_ne(u32x8::splat(0)).to_bitmask() as u8
}
