//! Marks: a line of text for each cell that is not 0.
ghost use Rattle.std.specs.Prelude.{◌≡◌, ◌-◌, ◌+◌, ◌*◌, ◌^◌, ◌<◌, ◌≤◌, ◌++◌, List, [], length, take, drop, IfOk, false};
ghost use Rattle.std.specs.Fmt.{digit_glyph};
ghost use Rattle.devices.specs.Sinks.{Writes, WritesAtMost};
ghost use Rattle.picture_out.specs.declared.form.Form.TheVariants.{Marks};
ghost use Rattle.picture_out.specs.Marks.{colour_digits, line, marks_from};
ghost use Rattle.picture_out.specs.Forms.{head_bytes, row_bytes, foot_bytes, takes_resolution};
ghost use Rattle.picture_out.specs.Rooms.{room_of, TakesAnyRow, AreInked};
ghost use Rattle.picture_out.specs.Spans.{IsBlankOutside};

use crate::cells::Span;
use crate::inks::{Ink, Inks};
use devices::{Sink, WriteFault, append, put_all};
use itoa::Buffer;

/// The most digits that a row or a column has.
const LONGEST_NUMBER: usize = 10;

/// The longest line: a row and a column of ten digits, a pen of three, a colour of six, three
/// spaces and the LF.
pub(crate) const LONGEST_LINE: usize = 33;

// Writes the header, and returns how many bytes it has: none.
pub(crate) fn append_head(_text: &mut [u8], _dots: u32, _columns: u32, _rows: u32) -> usize
    ensures text { take result _text.new ≡ head_bytes Marks _dots _columns _rows }
    ensures most { result ≤ length _text.old }
    ensures size { length _text.new ≡ length _text.old }
{
    0
}

// The least length of a buffer for a row: none is needed.
pub(crate) fn room(_columns: u32) -> usize
    ensures { result ≡ room_of Marks _columns }
{
    0
}

// The length of a buffer that takes any row whole.
pub(crate) fn row_space(columns: u32) -> usize
    ensures room { room_of Marks columns ≤ result }
    ensures whole { TakesAnyRow Marks columns result }
    ensures most { result ≤ LONGEST_LINE * columns }
{
    LONGEST_LINE * columns as usize
}

// Writes the lines of a row, as many at a time as the buffer is sure to take.
pub(crate) fn put_row<I: Inks, K: Sink>(
    index: u32,
    cells: &[u32],
    span: Span,
    inks: &I,
    buffer: &mut [u8],
    sink: &mut K,
) -> Result<u64, WriteFault>
    requires sound { (K.state sink.old).faults < 2 ^ 64 - 1 }
    requires columns { length cells.now < 2 ^ 32 }
    requires span { IsBlankOutside cells.now span.low span.end }
    requires inked { AreInked (I.inks inks.now) cells.now }
    ensures writes { Writes (K.state sink.old) (K.state sink.new) (row_bytes Marks index (I.inks inks.now) cells.now) result }
    ensures count { IfOk result (λ n. n ≡ length (row_bytes Marks index (I.inks inks.now) cells.now)) }
    ensures small { WritesAtMost (LONGEST_LINE * length cells.now) result }
{
    let mut digits = Buffer::new();
    let row_text = digits.format(index).as_bytes();
    if buffer.len() < LONGEST_LINE {
        let mut piece = [0; LONGEST_LINE];
        put_lines(row_text, cells, span, inks, &mut piece, sink)
    } else {
        put_lines(row_text, cells, span, inks, buffer, sink)
    }
}

// `put_row` with a piece that takes at least one line, and with the row's number as text.
fn put_lines<I: Inks, K: Sink>(
    row: &[u8],
    cells: &[u32],
    span: Span,
    inks: &I,
    piece: &mut [u8],
    sink: &mut K,
) -> Result<u64, WriteFault>
    requires sound { (K.state sink.old).faults < 2 ^ 64 - 1 }
    requires columns { length cells.now < 2 ^ 32 }
    requires span { IsBlankOutside cells.now span.low span.end }
    requires inked { AreInked (I.inks inks.now) cells.now }
    requires row { length row.now ≤ LONGEST_NUMBER }
    requires piece { LONGEST_LINE ≤ length piece.old }
    ensures writes { Writes (K.state sink.old) (K.state sink.new)
        (marks_from row.now 0 (I.inks inks.now) cells.now) result }
    ensures count { IfOk result (λ n. n ≡ length (marks_from row.now 0 (I.inks inks.now) cells.now)) }
    ensures small { WritesAtMost (LONGEST_LINE * length cells.now) result }
{
    let mut done: u64 = 0;
    let mut column = span.low;
    while column < span.end {
        let lines = fill(row, cells, inks, column, span.end, piece);
        match put_all(sink, &piece[..lines.length]) {
            Ok(()) => done += lines.length as u64,
            Err(fault) => return Err(fault.after(done)),
        }
        column = lines.next;
    }
    Ok(done)
}

// Lines in a piece: how many bytes they take, and the column that the next line may have.
#[derive(Clone, Copy)]
struct Lines {
    length: usize,
    next: usize,
}

// Fills the piece with the lines of the cells from column `from` up to `end`, as long as a longest
// line fits.
fn fill<I: Inks>(
    row: &[u8],
    cells: &[u32],
    inks: &I,
    from: usize,
    end: usize,
    piece: &mut [u8],
) -> Lines
    requires columns { length cells.now < 2 ^ 32 }
    requires inked { AreInked (I.inks inks.now) cells.now }
    requires from { from < end }
    requires end { end ≤ length cells.now }
    requires row { length row.now ≤ LONGEST_NUMBER }
    requires piece { LONGEST_LINE ≤ length piece.old }
    ensures fits { result.length ≤ length piece.new }
    ensures onward { from < result.next }
    ensures within { result.next ≤ end }
    ensures most { result.length + LONGEST_LINE * from ≤ LONGEST_LINE * result.next }
    ensures lines { take result.length piece.new
        ++ marks_from row.now result.next (I.inks inks.now) (drop result.next cells.now)
        ≡ marks_from row.now from (I.inks inks.now) (drop from cells.now) }
    ensures size { length piece.new ≡ length piece.old }
{
    let mut length = 0;
    let mut next = from;
    while next < end && length + LONGEST_LINE <= piece.len() {
        let cell = cells[next];
        if cell != 0 {
            length = append_line(piece, length, row, next as u32, inks.ink(cell));
        }
        next += 1;
    }
    Lines { length, next }
}

// Appends a line to the first `used` bytes of a piece, and returns how many are used then.
fn append_line(piece: &mut [u8], used: usize, row: &[u8], column: u32, ink: Ink) -> usize
    requires row { length row.now ≤ LONGEST_NUMBER }
    requires room { used + LONGEST_LINE ≤ length piece.old }
    ensures line { take result piece.new ≡ take used piece.old ++ line row.now column ink }
    ensures used { result ≡ used + length (line row.now column ink) }
    ensures most { result ≤ used + LONGEST_LINE }
    ensures size { length piece.new ≡ length piece.old }
{
    let mut digits = Buffer::new();
    let used = append(piece, used, row);
    let used = append(piece, used, b" ");
    let used = append(piece, used, digits.format(column).as_bytes());
    let used = append(piece, used, b" ");
    let used = append(piece, used, digits.format(ink.pen).as_bytes());
    let used = append(piece, used, b" ");
    let used = append(piece, used, &colour_text(ink));
    append(piece, used, b"\n")
}

fn colour_text(ink: Ink) -> [u8; 6]
    ensures { result ≡ colour_digits ink }
{
    [
        digit(ink.red / 16),
        digit(ink.red % 16),
        digit(ink.green / 16),
        digit(ink.green % 16),
        digit(ink.blue / 16),
        digit(ink.blue % 16),
    ]
}

// A number below 16 as a hexadecimal digit.
fn digit(number: u8) -> u8
    requires { number < 16 }
    ensures { result ≡ digit_glyph false number }
{
    if number < 10 {
        b'0' + number
    } else {
        b'a' + (number - 10)
    }
}

// The foot: none.
pub(crate) fn foot() -> &'static [u8]
    ensures { result.now ≡ foot_bytes Marks }
{
    b""
}

// Marks have any resolution.
pub(crate) fn takes_resolution(_dots: u32) -> bool
    ensures { result ≡ takes_resolution Marks _dots }
{
    true
}
