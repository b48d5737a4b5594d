//! PBM: Netpbm's portable bitmap (P4).
ghost use Rattle.std.specs.Prelude.{◌≡◌, ◌-◌, ◌+◌, ◌*◌, ◌^◌, ◌<◌, ◌≤◌, ◌++◌, List, [], length, take, IfOk};
ghost use Rattle.devices.specs.Sinks.{Writes, WritesAtMost};
ghost use Rattle.picture_out.specs.declared.form.Form.TheVariants.{Pbm};
ghost use Rattle.bit_rows.specs.Bits.{packed};
ghost use Rattle.picture_out.specs.Forms.{size_line, head_bytes, foot_bytes, takes_resolution};
ghost use Rattle.picture_out.specs.Rooms.{room_of, TakesAnyRow};
ghost use Rattle.picture_out.specs.Spans.{IsBlankOutside};

use crate::bits::pack_row;
use crate::cells::Span;
use crate::pieces::put_counted;
use bit_rows::packed_length;
use devices::{Sink, WriteFault, append};
use itoa::Buffer;

/// The longest magic number with the size: three bytes, two numbers of ten digits, a space and the LF.
pub(crate) const LONGEST_SIZE: usize = 25;

// Writes the header, and returns how many bytes it has.
pub(crate) fn append_head(text: &mut [u8], _dots: u32, columns: u32, rows: u32) -> usize
    requires room { LONGEST_SIZE ≤ length text.old }
    ensures text { take result text.new ≡ head_bytes Pbm _dots columns rows }
    ensures most { result ≤ LONGEST_SIZE }
    ensures size { length text.new ≡ length text.old }
{
    append_size(text, b"P4\n", columns, rows)
}

// Writes a magic number and the size line, and returns how many bytes they have.
pub(crate) fn append_size(text: &mut [u8], magic: &[u8], columns: u32, rows: u32) -> usize
    requires magic { length magic.now ≤ 3 }
    requires room { LONGEST_SIZE ≤ length text.old }
    ensures text { take result text.new ≡ magic.now ++ size_line columns rows }
    ensures most { result ≤ LONGEST_SIZE }
    ensures size { length text.new ≡ length text.old }
{
    let mut digits = Buffer::new();
    let used = append(text, 0, magic);
    let used = append(text, used, digits.format(columns).as_bytes());
    let used = append(text, used, b" ");
    let used = append(text, used, digits.format(rows).as_bytes());
    append(text, used, b"\n")
}

// The least length of a buffer for a row.
pub(crate) fn room(columns: u32) -> usize
    ensures { result ≡ room_of Pbm columns }
{
    packed_length(columns as usize)
}

// The length of a buffer that takes any row whole.
#[tactic(auto, using(crate::proofs::Sizes::packed_size))]
pub(crate) fn row_space(columns: u32) -> usize
    ensures room { room_of Pbm columns ≤ result }
    ensures whole { TakesAnyRow Pbm columns result }
    ensures most { result ≤ columns }
{
    room(columns)
}

// Writes a row.
pub(crate) fn put_row<K: Sink>(
    cells: &[u32],
    span: Span,
    buffer: &mut [u8],
    sink: &mut K,
) -> Result<u64, WriteFault>
    requires sound { (K.state sink.old).faults < 2 ^ 64 - 1 }
    requires span { IsBlankOutside cells.now span.low span.end }
    requires room { room_of Pbm (length cells.now) ≤ length buffer.old }
    ensures writes { Writes (K.state sink.old) (K.state sink.new) (packed cells.now) result }
    ensures count { IfOk result (λ n. n ≡ length (packed cells.now)) }
    ensures small { WritesAtMost (length cells.now) result }
{
    pack_row(cells, span, buffer);
    put_counted(sink, &buffer[..packed_length(cells.len())])
}

// The foot: none.
pub(crate) fn foot() -> &'static [u8]
    ensures { result.now ≡ foot_bytes Pbm }
{
    b""
}

// A PBM has any resolution.
pub(crate) fn takes_resolution(_dots: u32) -> bool
    ensures { result ≡ takes_resolution Pbm _dots }
{
    true
}
