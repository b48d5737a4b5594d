//! The forms that a picture is written in. Each has a module, and a call here chooses by the form.
ghost use Rattle.std.specs.Prelude.{◌≡◌, ℕ, ◌-◌, ◌+◌, ◌*◌, ◌^◌, ◌<◌, ◌≤◌, List, All, length, take, IfOk};
ghost use Rattle.devices.specs.Sinks.{Writes, WritesAtMost};
ghost use Rattle.picture_out.specs.Spans.{IsBlankOutside};
ghost use Rattle.picture_out.specs.Forms.{head_bytes, row_bytes, foot_bytes, takes_resolution};
ghost use Rattle.picture_out.specs.Rooms.{room_of, TakesAnyRow, AreInked};

use crate::cells::{Cells, Span};
use crate::inks::{Ink, Inks};
use crate::marks::LONGEST_LINE;
use crate::pcl::LONGEST_COMMAND;
use crate::pieces::put_counted;
use crate::{marks, pbm, pcl, ppm};
use devices::{Sink, WriteFault};

/// The form of a picture.
#[derive(Clone, Copy, Debug, PartialEq, Eq)]
pub enum Form {
    /// A line for each marked pixel: its row, its column, its pen and its colour.
    Marks,
    /// Netpbm's portable bitmap (P4).
    Pbm,
    /// Netpbm's portable pixmap (P6).
    Ppm,
    /// PCL 5 raster graphics without compression.
    Pcl,
}

impl Form {
    /// All forms.
    pub const ALL: [Form; 4] = [Form::Marks, Form::Pbm, Form::Ppm, Form::Pcl];
}

// The longest header, in bytes: PCL's.
const LONGEST_HEAD: usize = pcl::LONGEST_HEAD;

// The longest foot, in bytes: PCL's.
const LONGEST_FOOT: usize = 6;

/// Whether a picture in this form may have this resolution, in dots per inch: PCL has 75, 100, 150,
/// 200, 300 and 600, and each other form takes any.
pub fn takes_resolution(form: Form, dots: u32) -> bool
    ensures { result ≡ takes_resolution form dots }
{
    match form {
        Form::Marks => marks::takes_resolution(dots),
        Form::Pbm => pbm::takes_resolution(dots),
        Form::Ppm => ppm::takes_resolution(dots),
        Form::Pcl => pcl::takes_resolution(dots),
    }
}

/// The least length of a buffer that `put_row` takes for rows of `columns` columns, in bytes.
pub fn room(form: Form, columns: u32) -> usize
    ensures { result ≡ room_of form columns }
{
    match form {
        Form::Marks => marks::room(columns),
        Form::Pbm => pbm::room(columns),
        Form::Ppm => ppm::room(columns),
        Form::Pcl => pcl::room(columns),
    }
}

/// The length of a buffer, in bytes, that takes any row of `columns` columns whole, whatever its
/// inks, so that `put_row` writes it in one piece.
pub fn row_space(form: Form, columns: u32) -> usize
    ensures room { room_of form columns ≤ result }
    ensures whole { TakesAnyRow form columns result }
    ensures most { result ≤ LONGEST_LINE * columns + LONGEST_COMMAND }
{
    match form {
        Form::Marks => marks::row_space(columns),
        Form::Pbm => pbm::row_space(columns),
        Form::Ppm => ppm::row_space(columns),
        Form::Pcl => pcl::row_space(columns),
    }
}

/// Writes the header, and returns how many bytes it has: nothing for marks, for Netpbm's forms the
/// magic number and the size of the whole picture (pbm(5), ppm(5)), for PCL the commands that start
/// raster graphics, with the resolution and the size. `dots` is the resolution in dots per inch.
///
/// Errors: a `WriteFault` if and only if the sink fails; it has then taken the first `bytes` bytes.
pub fn put_head<K: Sink>(
    form: Form,
    dots: u32,
    columns: u32,
    rows: u32,
    sink: &mut K,
) -> Result<u64, WriteFault>
    requires sound { (K.state sink.old).faults < 2 ^ 64 - 1 }
    ensures writes { Writes (K.state sink.old) (K.state sink.new) (head_bytes form dots columns rows) result }
    ensures count { IfOk result (λ n. n ≡ length (head_bytes form dots columns rows)) }
    ensures small { length (head_bytes form dots columns rows) ≤ LONGEST_HEAD }
{
    let mut text = [0; LONGEST_HEAD];
    let used = match form {
        Form::Marks => marks::append_head(&mut text, dots, columns, rows),
        Form::Pbm => pbm::append_head(&mut text, dots, columns, rows),
        Form::Ppm => ppm::append_head(&mut text, dots, columns, rows),
        Form::Pcl => pcl::append_head(&mut text, dots, columns, rows),
    };
    put_counted(sink, &text[..used])
}

/// Writes the row with the number `index`, counted from 0 at the top, and returns how many bytes it
/// has. Each cell is 0 for the paper, or the position of its ink, from 1 up to and including the
/// count. Marks have a line `row column pen rrggbb` for each cell that is not 0, the colour in
/// hexadecimal; PBM has a bit for each cell, PPM three bytes, PCL the bytes of PBM after the command
/// that transfers them.
/// The buffer is `room` long or longer, and what it holds afterwards has no meaning.
///
/// Errors: a `WriteFault` if and only if the sink fails; it has then taken the first `bytes` bytes.
pub fn put_row<I: Inks, K: Sink>(
    form: Form,
    index: u32,
    cells: Cells<'_>,
    inks: &I,
    buffer: &mut [u8],
    sink: &mut K,
) -> Result<u64, WriteFault>
    requires sound { (K.state sink.old).faults < 2 ^ 64 - 1 }
    requires columns { length cells < 2 ^ 32 }
    requires inked { AreInked (I.inks inks.now) cells }
    requires room { room_of form (length cells) ≤ length buffer.old }
    ensures writes { Writes (K.state sink.old) (K.state sink.new)
        (row_bytes form index (I.inks inks.now) cells.entry) result }
    ensures count { IfOk result (λ n. n ≡ length (row_bytes form index (I.inks inks.now) cells.entry)) }
    ensures small { WritesAtMost (LONGEST_LINE * length cells.entry + LONGEST_COMMAND) result }
{
    let span = cells.span;
    put_cells(form, index, cells.cells, span, inks, buffer, sink)
}

fn put_cells<I: Inks, K: Sink>(
    form: Form,
    index: u32,
    cells: &[u32],
    span: Span,
    inks: &I,
    buffer: &mut [u8],
    sink: &mut K,
) -> Result<u64, WriteFault>
    requires sound { (K.state sink.old).faults < 2 ^ 64 - 1 }
    requires columns { length cells.now < 2 ^ 32 }
    requires span { IsBlankOutside cells.now span.low span.end }
    requires inked { AreInked (I.inks inks.now) cells.now }
    requires room { room_of form (length cells.now) ≤ length buffer.old }
    ensures writes { Writes (K.state sink.old) (K.state sink.new)
        (row_bytes form index (I.inks inks.now) cells.now) result }
    ensures count { IfOk result (λ n. n ≡ length (row_bytes form index (I.inks inks.now) cells.now)) }
    ensures small { WritesAtMost (LONGEST_LINE * length cells.now + LONGEST_COMMAND) result }
{
    match form {
        Form::Marks => marks::put_row(index, cells, span, inks, buffer, sink),
        Form::Pbm => pbm::put_row(cells, span, buffer, sink),
        Form::Ppm => ppm::put_row(cells, span, inks, buffer, sink),
        Form::Pcl => pcl::put_row(cells, span, buffer, sink),
    }
}

/// Writes the foot, which follows the rows, and returns how many bytes it has: for PCL the commands
/// that end raster graphics and reset the printer, for each other form nothing.
///
/// Errors: a `WriteFault` if and only if the sink fails; it has then taken the first `bytes` bytes.
pub fn put_foot<K: Sink>(form: Form, sink: &mut K) -> Result<u64, WriteFault>
    requires sound { (K.state sink.old).faults < 2 ^ 64 - 1 }
    ensures writes { Writes (K.state sink.old) (K.state sink.new) (foot_bytes form) result }
    ensures count { IfOk result (λ n. n ≡ length (foot_bytes form)) }
    ensures small { length (foot_bytes form) ≤ LONGEST_FOOT }
{
    put_counted(sink, foot_of(form))
}

fn foot_of(form: Form) -> &'static [u8]
    ensures { result.now ≡ foot_bytes form }
{
    match form {
        Form::Marks => marks::foot(),
        Form::Pbm => pbm::foot(),
        Form::Ppm => ppm::foot(),
        Form::Pcl => pcl::foot(),
    }
}
