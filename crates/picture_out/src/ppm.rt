//! PPM: Netpbm's portable pixmap (P6).
ghost use Rattle.std.specs.Prelude.{◌≡◌, ℕ, ◌<◌, ◌≤◌, ◌-◌, ◌+◌, ◌*◌, ◌/◌, ◌%◌, ◌^◌, ◌++◌, length, take, drop, get_or};
ghost use Rattle.std.specs.Prelude.{IfOk, flat_map};
ghost use Rattle.std.specs.List.{range_with_len};
ghost use Rattle.devices.specs.Sinks.{Writes, WritesAtMost};
ghost use Rattle.picture_out.specs.declared.form.Form.TheVariants.{Ppm};
ghost use Rattle.picture_out.specs.Inks.{colour_bytes, cell_colour};
ghost use Rattle.picture_out.specs.Forms.{head_bytes, foot_bytes, takes_resolution};
ghost use Rattle.picture_out.specs.Rooms.{room_of, TakesAnyRow, AreInked};
ghost use Rattle.picture_out.specs.Spans.{IsBlankOutside};

use crate::cells::Span;
use crate::inks::{Ink, Inks};
use crate::pbm::{LONGEST_SIZE, append_size};
use crate::pieces::put_counted;
use devices::{Sink, WriteFault, append};

/// The longest header: that of a PBM, with `255` and an LF.
pub(crate) const LONGEST_HEAD: usize = LONGEST_SIZE + 4;

// Writes the header, and returns how many bytes it has.
pub(crate) fn append_head(text: &mut [u8], _dots: u32, columns: u32, rows: u32) -> usize
    requires room { LONGEST_HEAD ≤ length text.old }
    ensures text { take result text.new ≡ head_bytes Ppm _dots columns rows }
    ensures most { result ≤ LONGEST_HEAD }
    ensures size { length text.new ≡ length text.old }
{
    let used = append_size(text, b"P6\n", columns, rows);
    append(text, used, b"255\n")
}

// The least length of a buffer for a row.
pub(crate) fn room(columns: u32) -> usize
    ensures { result ≡ room_of Ppm columns }
{
    3 * columns as usize
}

// The length of a buffer that takes any row whole.
#[tactic(auto, using(crate::proofs::Sizes::coloured_size))]
pub(crate) fn row_space(columns: u32) -> usize
    ensures room { room_of Ppm columns ≤ result }
    ensures whole { TakesAnyRow Ppm columns result }
    ensures most { result ≤ 3 * columns }
{
    room(columns)
}

// Writes a row.
pub(crate) fn put_row<I: Inks, K: Sink>(
    cells: &[u32],
    span: Span,
    inks: &I,
    buffer: &mut [u8],
    sink: &mut K,
) -> Result<u64, WriteFault>
    requires sound { (K.state sink.old).faults < 2 ^ 64 - 1 }
    requires span { IsBlankOutside cells.now span.low span.end }
    requires inked { AreInked (I.inks inks.now) cells.now }
    requires room { room_of Ppm (length cells.now) ≤ length buffer.old }
    ensures writes { Writes (K.state sink.old) (K.state sink.new)
        (flat_map (cell_colour (I.inks inks.now)) cells.now) result }
    ensures count { IfOk result (λ n. n ≡ length (flat_map (cell_colour (I.inks inks.now)) cells.now)) }
    ensures small { WritesAtMost (3 * length cells.now) result }
{
    put_colours(cells, span, inks, buffer);
    put_counted(sink, &buffer[..3 * cells.len()])
}

// Writes the colour of each cell, from the left, and leaves the bytes after them as they were. The
// ink is looked up once for each run of equal cells.
fn put_colours<I: Inks>(cells: &[u32], span: Span, inks: &I, out: &mut [u8])
    requires span { IsBlankOutside cells.now span.low span.end }
    requires inked { AreInked (I.inks inks.now) cells.now }
    requires room { 3 * length cells.now ≤ length out.old }
    ensures coloured { out.new
        ≡ flat_map (cell_colour (I.inks inks.now)) cells.now ++ drop (3 * length cells.now) out.old }
{
    let all = cells.len();
    out[..3 * span.low].fill(255);
    let mut column = span.low;
    while column < span.end {
        let next = run_end(cells, column, span.end);
        put_run(
            cell_ink(cells[column], inks),
            &mut out[3 * column..3 * next],
        );
        column = next;
    }
    out[3 * span.end..3 * all].fill(255);
}

const PAPER: Ink = Ink {
    pen: 0,
    red: 255,
    green: 255,
    blue: 255,
};

// The ink of a cell; 0 is the paper.
#[inline(always)]
fn cell_ink<I: Inks>(cell: u32, inks: &I) -> Ink
    requires { cell ≤ length (I.inks inks.now) }
    ensures { colour_bytes result ≡ cell_colour (I.inks inks.now) cell }
{
    if cell == 0 { PAPER } else { inks.ink(cell) }
}

// The end of the run of equal cells that begins in `column`.
#[inline(always)]
fn run_end(cells: &[u32], column: usize, end: usize) -> usize
    requires from { column < end }
    requires end { end ≤ length cells.now }
    ensures onward { column < result }
    ensures within { result ≤ end }
    ensures same { (k : ℕ) → column ≤ k → k < result → get_or cells.now k 0 ≡ get_or cells.now column 0 }
{
    let first = cells[column];
    let mut next = column + 1;
    while next < end && cells[next] == first {
        next += 1;
    }
    next
}

// Fills a piece of three bytes for each pixel with one colour.
#[inline(always)]
fn put_run(ink: Ink, out: &mut [u8])
    requires whole { length out.old % 3 ≡ 0 }
    ensures { out.new ≡ flat_map (λ _. colour_bytes ink) (range_with_len 0 (length out.old / 3)) }
{
    let count = out.len() / 3;
    for pixel in 0..count {
        out[3 * pixel] = ink.red;
        out[3 * pixel + 1] = ink.green;
        out[3 * pixel + 2] = ink.blue;
    }
}

// The foot: none.
pub(crate) fn foot() -> &'static [u8]
    ensures { result.now ≡ foot_bytes Ppm }
{
    b""
}

// A PPM has any resolution.
pub(crate) fn takes_resolution(_dots: u32) -> bool
    ensures { result ≡ takes_resolution Ppm _dots }
{
    true
}
