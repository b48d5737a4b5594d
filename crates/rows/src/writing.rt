//! Writing a picture, band by band, and how far it comes if the sink fails.
ghost use Rattle.std.specs.Prelude.{◌≡◌, ℕ, List, ◌+◌, ◌-◌, ◌*◌, ◌^◌, ◌<◌, ◌≤◌, length, IfOk, nat_eq, if◌then◌else◌};
ghost use Rattle.devices.specs.Sinks.{Writes};
ghost use Rattle.picture_out.specs.Forms.{foot_bytes, head_bytes};
ghost use Rattle.rows.specs.Pictures.{foot_if, head_if};
ghost use Rattle.rows.specs.Progress.{IsToldOfRows, WritesPicture, WritesRows};

use crate::bands::Bands;
use crate::watcher::Watcher;
use devices::{Sink, WriteFault, put_all};
use picture_out::{Form, put_foot, put_head};
use stroke_raster::Gauge;

/// Where the writing of a picture stopped: after `bytes` bytes, in the row `row` (or after the last
/// one), which begins after `whole` bytes; `whole` is 0 if no row was written whole.
#[derive(Clone, Copy, Debug)]
pub struct Broken {
    pub row: u32,
    pub whole: u64,
    pub bytes: u64,
}

/// Paints and writes a picture in a form, at `dots` dots per inch, of rows of `columns` pixels, which the bands give: the
/// head if it begins with row 0, its rows, the foot if the last row is one of them. Tells the watcher after each band how many
/// rows are written. Answers how many bytes that are.
#[tactic(auto, using(crate::proofs::Watched::none_told))]
pub fn write_picture<'a, B: Bands<'a>, G: Gauge, K: Sink, W: Watcher>(
    form: Form,
    dots: u32,
    columns: u32,
    bands: &mut B,
    gauge: &mut G,
    sink: &mut K,
    watcher: &mut W,
) -> Result<u64, Broken>
    requires sinking { (K.state sink.old).faults < 2 ^ 64 - 1 }
    ensures tests { G.count gauge.new ≤ G.count gauge.old + B.tests bands.old }
    ensures same { G.reaches gauge.new ≡ G.reaches gauge.old }
    ensures told { IsToldOfRows W.hears (B.end bands.old - B.next bands.old) watcher.old watcher.new result }
    ensures writes { WritesPicture (head_bytes form dots columns (B.rows bands.old)) (B.row_text bands.old (G.reaches gauge.old))
        (foot_if (foot_bytes form) (B.rows bands.old) (B.end bands.old)) (B.end bands.old) (B.next bands.old) (K.state sink.old) (K.state sink.new) result }
{
    let first = bands.next_row();
    let end = bands.end_row();
    let rows = bands.rows();
    let before = match write_head(form, dots, columns, rows, first, sink) {
        Ok(bytes) => bytes,
        Err(fault) => {
            return Err(Broken {
                row: first,
                whole: 0,
                bytes: fault.bytes(),
            });
        }
    };
    let done = match write_left(before, bands, gauge, sink, watcher) {
        Ok(bytes) => bytes,
        Err(stop) => return Err(stop),
    };
    match write_foot(form, rows, end, sink) {
        Ok(bytes) => Ok(done + bytes),
        Err(fault) => Err(Broken {
            row: end,
            whole: whole_before(end, first, done),
            bytes: done + fault.bytes(),
        }),
    }
}

/// Paints and writes the rows that are left, after `done` bytes. Tells the watcher after each band how many rows are
/// written. Answers how many bytes there are then.
pub fn write_left<'a, B: Bands<'a>, G: Gauge, K: Sink, W: Watcher>(
    done: u64,
    bands: &mut B,
    gauge: &mut G,
    sink: &mut K,
    watcher: &mut W,
) -> Result<u64, Broken>
    requires sinking { (K.state sink.old).faults < 2 ^ 64 - 1 }
    requires few { done ≤ 128 }
    ensures tests { G.count gauge.new ≤ G.count gauge.old + B.tests bands.old }
    ensures same { G.reaches gauge.new ≡ G.reaches gauge.old }
    ensures writes { WritesRows (B.row_text bands.old (G.reaches gauge.old)) (B.next bands.old) (B.next bands.old)
        (B.end bands.old) done (K.state sink.old) (K.state sink.new) result }
    ensures told { IsToldOfRows W.hears (B.end bands.old - B.next bands.old) watcher.old watcher.new result }
    ensures small { IfOk result (λ n. n ≤ 2 ^ 45) }
{
    let first = bands.next_row();
    let end = bands.end_row();
    let mut at = first;
    let mut written = done;
    'each: while at < end {
        match bands.write_next(first, written, gauge, sink) {
            Ok(bytes) => written = bytes,
            Err(stop) => return Err(stop),
        }
        at = bands.next_row();
        tell(watcher, first, at, end);
    }
    Ok(written)
}

// Tells the watcher that the rows from `first` up to `at` are written, of those up to `end`.
fn tell<W: Watcher>(watcher: &mut W, first: u32, at: u32, end: u32)
    requires some { first < at }
    requires within { at ≤ end }
    ensures { W.hears watcher.old (at - first) (end - first) watcher.new }
{
    watcher.rows_written(at - first, end - first);
}

// Writes the head if the picture begins with row 0, and answers how many bytes that took.
fn write_head<K: Sink>(
    form: Form,
    dots: u32,
    columns: u32,
    rows: u32,
    first: u32,
    sink: &mut K,
) -> Result<u64, WriteFault>
    requires { (K.state sink.old).faults < 2 ^ 64 - 1 }
    ensures writes { Writes (K.state sink.old) (K.state sink.new) (head_if (head_bytes form dots columns rows) first) result }
    ensures count { IfOk result (λ n. n ≡ length (head_if (head_bytes form dots columns rows) first)) }
    ensures small { length (head_if (head_bytes form dots columns rows) first) ≤ 128 }
{
    if first == 0 {
        put_head(form, dots, columns, rows, sink)
    } else {
        Ok(0)
    }
}

// Writes the foot if the rows before `end` are all rows, and answers how many bytes that took.
fn write_foot<K: Sink>(form: Form, rows: u32, end: u32, sink: &mut K) -> Result<u64, WriteFault>
    requires { (K.state sink.old).faults < 2 ^ 64 - 1 }
    ensures writes { Writes (K.state sink.old) (K.state sink.new) (foot_if (foot_bytes form) rows end) result }
    ensures count { IfOk result (λ n. n ≡ length (foot_if (foot_bytes form) rows end)) }
    ensures small { length (foot_if (foot_bytes form) rows end) ≤ 128 }
{
    if end >= rows {
        put_foot(form, sink)
    } else {
        Ok(0)
    }
}

/// The bytes up to the end of the row before `row`, if there are `done` bytes before it: none if it
/// is the first row of this run, since no row was written then.
pub fn whole_before(row: u32, first: u32, done: u64) -> u64
    ensures { result ≡ (if nat_eq row first then 0 else done) }
{
    if row == first { 0 } else { done }
}

/// Writes the bytes of a row after `done` bytes, and answers how many bytes there are then. Row `first` is the one that the
/// picture begins with.
pub fn put_row<K: Sink>(
    first: u32,
    row: u32,
    done: u64,
    bytes: &[u8],
    sink: &mut K,
) -> Result<u64, Broken>
    requires sinking { (K.state sink.old).faults < 2 ^ 64 - 1 }
    requires done_in { done + length bytes.now < 2 ^ 64 }
    ensures row { (text : ℕ → List ℕ) → text row ≡ bytes.now →
        WritesRows text first row (row + 1) done (K.state sink.old) (K.state sink.new) result }
    ensures count { IfOk result (λ n. n ≡ done + length bytes.now) }
    ensures quiet { IfOk result (λ _. (K.state sink.new).faults ≡ (K.state sink.old).faults) }
{
    match put_all(sink, bytes) {
        Ok(()) => Ok(done + bytes.len() as u64),
        Err(fault) => Err(Broken {
            row,
            whole: whole_before(row, first, done),
            bytes: done + fault.bytes(),
        }),
    }
}
