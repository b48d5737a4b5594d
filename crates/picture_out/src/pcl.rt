//! PCL 5 raster graphics without compression.
ghost use Rattle.std.specs.Prelude.{◌≡◌, ◌-◌, ◌+◌, ◌*◌, ◌^◌, ◌<◌, ◌≤◌, ◌++◌, List, [], length, take, IfOk, decimal};
ghost use Rattle.devices.specs.Sinks.{Writes, WritesAtMost};
ghost use Rattle.picture_out.specs.declared.form.Form.TheVariants.{Pcl};
ghost use Rattle.bit_rows.specs.Bits.{packed};
ghost use Rattle.picture_out.specs.Pcl.{transfer_command};
ghost use Rattle.picture_out.specs.Pcl as pcl;
ghost use Rattle.picture_out.specs.Forms.{head_bytes, foot_bytes, takes_resolution};
ghost use Rattle.picture_out.specs.Rooms.{room_of, TakesAnyRow};
ghost use Rattle.picture_out.specs.Spans.{IsBlankOutside};

use crate::bits::pack_row;
use crate::cells::Span;
use crate::pieces::{put_both, put_counted};
use bit_rows::packed_length;
use devices::{Sink, WriteFault, append};
use itoa::Buffer;

/// The longest command with a value: ESC, two letters, ten digits and a letter.
pub const LONGEST_COMMAND: usize = 14;

/// The longest header: a reset of two bytes, three commands with a value, and two of five bytes.
pub(crate) const LONGEST_HEAD: usize = 2 + 3 * LONGEST_COMMAND + 10;

// Writes the header, the commands before the rows, and returns how many bytes they have.
pub(crate) fn append_head(text: &mut [u8], dots: u32, columns: u32, rows: u32) -> usize
    requires room { LONGEST_HEAD ≤ length text.old }
    ensures text { take result text.new ≡ head_bytes Pcl dots columns rows }
    ensures most { result ≤ LONGEST_HEAD }
    ensures size { length text.new ≡ length text.old }
{
    let used = append(text, 0, b"\x1bE");
    let used = append_command(text, used, b"\x1b*t", dots, b"R");
    let used = append_command(text, used, b"\x1b*r", columns, b"S");
    let used = append_command(text, used, b"\x1b*r", rows, b"T");
    append(text, used, b"\x1b*r0A\x1b*b0M")
}

// Appends a command with a value in decimal to the first `used` bytes of a text, and returns how
// many are used then.
fn append_command(text: &mut [u8], used: usize, group: &[u8], value: u32, letter: &[u8]) -> usize
    requires group { length group.now ≡ 3 }
    requires letter { length letter.now ≡ 1 }
    requires room { used + LONGEST_COMMAND ≤ length text.old }
    ensures text { take result text.new ≡ take used text.old ++ group.now ++ decimal value ++ letter.now }
    ensures most { result ≤ used + LONGEST_COMMAND }
    ensures size { length text.new ≡ length text.old }
{
    let mut digits = Buffer::new();
    let used = append(text, used, group);
    let used = append(text, used, digits.format(value).as_bytes());
    append(text, used, letter)
}

// The least length of a buffer for a row.
pub(crate) fn room(columns: u32) -> usize
    ensures { result ≡ room_of Pcl columns }
{
    packed_length(columns as usize)
}

// The length of a buffer that takes any row whole.
pub(crate) fn row_space(columns: u32) -> usize
    ensures room { room_of Pcl columns ≤ result }
    ensures whole { TakesAnyRow Pcl columns result }
    ensures most { result ≤ columns + LONGEST_COMMAND }
{
    room(columns) + LONGEST_COMMAND
}

// Writes a row: in one piece if the buffer also takes the command that precedes the bytes.
pub(crate) fn put_row<K: Sink>(
    cells: &[u32],
    span: Span,
    buffer: &mut [u8],
    sink: &mut K,
) -> Result<u64, WriteFault>
    requires sound { (K.state sink.old).faults < 2 ^ 64 - 1 }
    requires columns { length cells.now < 2 ^ 32 }
    requires span { IsBlankOutside cells.now span.low span.end }
    requires room { room_of Pcl (length cells.now) ≤ length buffer.old }
    ensures writes { Writes (K.state sink.old) (K.state sink.new)
        (transfer_command (length (packed cells.now)) ++ packed cells.now) result }
    ensures count { IfOk result (λ n. n ≡ length (transfer_command (length (packed cells.now)) ++ packed cells.now)) }
    ensures most { length (transfer_command (length (packed cells.now)) ++ packed cells.now)
        ≤ LONGEST_COMMAND + room_of Pcl (length cells.now) }
{
    let bytes = packed_length(cells.len());
    let mut text = [0; LONGEST_COMMAND];
    let used = append_command(&mut text, 0, b"\x1b*b", bytes as u32, b"W");
    let command = &text[..used];
    if buffer.len() - bytes < command.len() {
        pack_row(cells, span, buffer);
        put_both(sink, command, &buffer[..bytes])
    } else {
        let start = append(buffer, 0, command);
        pack_row(cells, span, &mut buffer[start..]);
        put_counted(sink, &buffer[..start + bytes])
    }
}

/// Appends a row of these bytes to the first `used` bytes of a text: the command that transfers them, and the
/// bytes. Returns how many bytes of the text are used then.
pub fn append_row(text: &mut [u8], used: usize, bytes: &[u8]) -> usize
    requires bytes { length bytes.now < 2 ^ 32 }
    requires room { used + LONGEST_COMMAND + length bytes.now ≤ length text.old }
    ensures text { take result text.new ≡ take used text.old ++ pcl.row bytes.now }
    ensures most { result ≤ used + LONGEST_COMMAND + length bytes.now }
    ensures size { length text.new ≡ length text.old }
{
    let used = append_command(text, used, b"\x1b*b", bytes.len() as u32, b"W");
    append(text, used, bytes)
}

// The foot: the commands after the rows.
pub(crate) fn foot() -> &'static [u8]
    ensures { result.now ≡ foot_bytes Pcl }
{
    b"\x1b*rB\x1bE"
}

// PCL 5 has six resolutions.
pub(crate) fn takes_resolution(dots: u32) -> bool
    ensures { result ≡ takes_resolution Pcl dots }
{
    matches!(dots, 75 | 100 | 150 | 200 | 300 | 600)
}
