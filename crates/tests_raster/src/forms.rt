// What the forms write, byte by byte, over a `Vec` and over sinks that take little or fail.
ghost use Rattle.std.specs.Prelude.{◌≡◌, ◌-◌, ◌+◌, ◌^◌, ◌<◌, ◌≤◌, All, Some, length};

use devices::{OverWrite, Sink, SinkFault, put_all};
use picture_out::{
    Cells, Form, Ink, Inks, pack_bits, put_foot, put_head, put_row, room, row_space,
};
use std::alloc::Global;
use std::io::Write;
use std::process::Abort;
use std::test::Fail;

pub(crate) struct Table {
    inks: [Ink; 4],
}

impl Inks for Table {
    ghost inks = { λ table. table.inks };

    fn count(&self) -> u32 {
        4
    }

    fn ink(&self, n: u32) -> Ink {
        self.inks[n as usize - 1]
    }
}

const BLACK: Ink = Ink {
    pen: 1,
    red: 0,
    green: 0,
    blue: 0,
};

const DARK: Ink = Ink {
    pen: 2,
    red: 10,
    green: 20,
    blue: 30,
};

const BLACK_TOO: Ink = Ink {
    pen: 255,
    red: 0,
    green: 0,
    blue: 0,
};

const WHITE: Ink = Ink {
    pen: 7,
    red: 255,
    green: 255,
    blue: 255,
};

pub(crate) const TABLE: Table = Table {
    inks: [BLACK, DARK, BLACK_TOO, WHITE],
};

// A sink that takes at most `step` bytes a call and fails after `limit` bytes, by a fault or by
// taking nothing: from then on, or once.
#[derive(Drop)]
pub(crate) struct Narrow {
    pub(crate) bytes: Vec<u8>,
    pub(crate) limit: usize,
    pub(crate) step: usize,
    pub(crate) faults: bool,
    pub(crate) once: bool,
    pub(crate) failures: u64,
    pub(crate) puts: u64,
}

// A sink that fails after `limit` bytes, by faults from then on.
pub(crate) fn narrow_sink(alloc: Global, limit: usize, step: usize) -> Narrow
    ensures { result.failures ≡ 0 }
{
    Narrow {
        bytes: Vec::new(alloc),
        limit,
        step,
        faults: true,
        once: false,
        failures: 0,
        puts: 0,
    }
}

impl Sink for Narrow {
    ghost state = { λ s. record { held = Some s.bytes.items; faults = s.failures } };

    fn put(&mut self, piece: &[u8]) -> Result<usize, SinkFault> {
        self.puts = self.puts.wrapping_add(1);
        let left = if self.once && self.failures > 0 {
            piece.len()
        } else {
            self.limit.saturating_sub(self.bytes.len())
        };
        let taken = piece.len().min(self.step).min(left);
        if taken == 0 && !piece.is_empty() {
            self.failures += 1;
            return if self.faults { Err(SinkFault) } else { Ok(0) };
        }
        match self.bytes.extend_from_slice(&piece[..taken]) {
            Ok(()) => Ok(taken),
            Err(_) => {
                self.failures += 1;
                Err(SinkFault)
            }
        }
    }

    fn failures(&self) -> u64 {
        self.failures
    }
}

pub(crate) const CELLS: [u32; 9] = [0, 1, 2, 0, 0, 3, 0, 1, 4];

const MARKS: &[u8] =
    b"12 1 1 000000\n12 2 2 0a141e\n12 5 255 000000\n12 7 1 000000\n12 8 7 ffffff\n";

#[test]
fn a_bitmap(rt: HostRuntime) -> Result<(), Fail> {
    let mut sink = OverWrite::new(Vec::new(rt.alloc()));
    let mut buffer = [255; 2];
    assert_eq!(rt; room(Form::Pbm, 9), 2);
    put_head(Form::Pbm, 127, 9, 2, &mut sink)?;
    put_row(
        Form::Pbm,
        0,
        Cells::new(&CELLS),
        &TABLE,
        &mut buffer,
        &mut sink,
    )?;
    put_row(
        Form::Pbm,
        1,
        Cells::new(&[0; 9]),
        &TABLE,
        &mut buffer,
        &mut sink,
    )?;
    put_foot(Form::Pbm, &mut sink)?;
    assert_eq!(rt; sink.failures(), 0);
    assert_eq!(rt;
        sink.into_inner().as_slice(),
        b"P4\n9 2\n\x65\x80\x00\x00".as_slice()
    );
    Ok(())
}

// Runs of one position, beside inks of the same colour.
#[test]
fn a_pixmap(rt: HostRuntime) -> Result<(), Fail> {
    let mut sink = OverWrite::new(Vec::new(rt.alloc()));
    let mut buffer = [9; 40];
    assert_eq!(rt; room(Form::Ppm, 10), 30);
    put_head(Form::Ppm, 600, 10, 12345, &mut sink)?;
    let cells = [0, 1, 1, 3, 2, 2, 4, 0, 0, 1];
    put_row(
        Form::Ppm,
        0,
        Cells::new(&cells),
        &TABLE,
        &mut buffer,
        &mut sink,
    )?;
    put_foot(Form::Ppm, &mut sink)?;
    let mut want = Vec::from_slice(rt.alloc(), b"P6\n10 12345\n255\n")?;
    want.extend_from_slice(b"\xff\xff\xff\x00\x00\x00\x00\x00\x00\x00\x00\x00\x0a\x14\x1e")?;
    want.extend_from_slice(b"\x0a\x14\x1e\xff\xff\xff\xff\xff\xff\xff\xff\xff\x00\x00\x00")?;
    assert_eq!(rt; sink.into_inner().as_slice(), want.as_slice());
    assert_eq!(rt; &buffer[30..], [9; 10].as_slice());
    Ok(())
}

const WIDE: [u32; 20] = [0, 0, 0, 0, 0, 0, 0, 1, 0, 1, 1, 2, 0, 4, 3, 0, 2, 0, 0, 0];

// The bytes of row 5 of 20 columns.
fn written(rt: &HostRuntime, form: Form, cells: Cells<'_>) -> Result<Vec<u8>, Fail>
    requires columns { length cells ≡ 20 }
    requires inked { All (λ cell. cell ≤ 4) cells }
{
    let mut sink = OverWrite::new(Vec::new(rt.alloc()));
    let mut buffer = [9; 60];
    put_row(form, 5, cells, &TABLE, &mut buffer, &mut sink)?;
    Ok(sink.into_inner())
}

#[test]
fn spans(rt: HostRuntime) -> Result<(), Fail> {
    for form in Form::ALL {
        let want = written(&rt, form, Cells::new(&WIDE))?;
        for cells in [
            Cells::within(&WIDE, 7, 17),
            Cells::within(&WIDE, 6, 18),
            Cells::within(&WIDE, 3, 17),
            Cells::within(&WIDE, 0, 20),
        ] {
            assert_eq!(rt; written(&rt, form, cells)?.as_slice(), want.as_slice());
        }
        let blank = written(&rt, form, Cells::new(&[0; 20]))?;
        for cells in [
            Cells::within(&[0; 20], 0, 0),
            Cells::within(&[0; 20], 13, 13),
            Cells::within(&[0; 20], 20, 20),
        ] {
            assert_eq!(rt; written(&rt, form, cells)?.as_slice(), blank.as_slice());
        }
    }
    Ok(())
}

// The same lines from a buffer of any length, and one piece from a buffer of `row_space`.
#[test]
fn marks_from_each_buffer(rt: HostRuntime) -> Result<(), Fail> {
    let mut buffer = [9; 400];
    let whole = row_space(Form::Marks, 9);
    for (length, puts) in [(0, 5), (5, 5), (50, 3), (whole, 1)] {
        let mut sink = narrow_sink(rt.alloc(), 1000, 1000);
        if length <= 400 {
            let buffer = &mut buffer[..length];
            put_head(Form::Marks, 127, 9, 13, &mut sink)?;
            let cells = Cells::new(&CELLS);
            let count = put_row(Form::Marks, 12, cells, &TABLE, buffer, &mut sink)?;
            put_row(
                Form::Marks,
                13,
                Cells::new(&[0; 9]),
                &TABLE,
                buffer,
                &mut sink,
            )?;
            put_foot(Form::Marks, &mut sink)?;
            assert_eq!(rt; count, 72, "length {length}");
        }
        assert_eq!(rt; sink.bytes.as_slice(), MARKS, "length {length}");
        assert_eq!(rt; sink.puts, puts, "length {length}");
    }
    Ok(())
}

// A sink that takes one byte a call gets all the bytes, and no empty piece.
#[test]
fn one_byte_a_call(rt: HostRuntime) -> Result<(), Fail> {
    let mut sink = narrow_sink(rt.alloc(), 1000, 1);
    put_all(&mut sink, b"")?;
    assert_eq!(rt; sink.puts, 0);
    put_all(&mut sink, MARKS)?;
    assert_eq!(rt; sink.bytes.as_slice(), MARKS);
    assert_eq!(rt; sink.puts, 72);
    Ok(())
}

// The fault tells how many bytes were taken, wherever the sink fails, and whichever way.
#[test]
fn a_sink_that_fails(rt: HostRuntime) -> Result<(), Fail> {
    for limit in 0..72 {
        for faults in [true, false] {
            for room in [0, 50, 300] {
                let mut sink = narrow_sink(rt.alloc(), limit, 11);
                sink.faults = faults;
                let mut buffer = [0; 300];
                let fault = put_row(
                    Form::Marks,
                    12,
                    Cells::new(&CELLS),
                    &TABLE,
                    &mut buffer[..room],
                    &mut sink,
                )
                .err()
                .ok_or("written")?;
                assert_eq!(rt; fault.bytes(), limit as u64);
                assert_eq!(rt; sink.bytes.as_slice(), &MARKS[..limit]);
                assert_eq!(rt; sink.failures(), 1);
                let text = format!(in rt.alloc(); "{fault}")?;
                let want = format!(in rt.alloc(); "write failed after {limit} bytes")?;
                assert_eq!(rt; text.as_str(), want.as_str());
            }
        }
    }
    Ok(())
}

// A writer that is full after `room` bytes.
#[derive(Drop)]
struct Small {
    room: usize,
}

impl Write for Small {
    fn write(&mut self, buf: &[u8]) -> std::io::Result<usize> {
        let taken = buf.len().min(self.room);
        self.room -= taken;
        Ok(taken)
    }

    fn flush(&mut self) -> std::io::Result<()> {
        Ok(())
    }
}

#[test]
fn a_writer_that_is_full(rt: HostRuntime) -> Result<(), Fail> {
    let mut sink = OverWrite::new(Small { room: 1 });
    assert_eq!(rt; sink.put(b"ab").ok(), Some(1));
    assert_eq!(rt; sink.put(b"").ok(), Some(0));
    assert_eq!(rt; sink.failures(), 0);
    assert_eq!(rt; sink.put(b"b").ok(), Some(0));
    assert_eq!(rt; sink.failures(), 1);
    Ok(())
}

#[test]
fn bytes_past_the_packed_ones(rt: HostRuntime) {
    let mut out = [7; 4];
    let cells = [0, 1, 2, 0, 0, 255, 0, 1, 3];
    pack_bits(&cells, &mut out);
    assert_eq!(rt; out, [0x65, 0x80, 7, 7]);
    pack_bits(&cells[..8], &mut out);
    assert_eq!(rt; out, [0x65, 0x80, 7, 7]);
    pack_bits(&[], &mut out[..0]);
    assert_eq!(rt; out, [0x65, 0x80, 7, 7]);
    pack_bits(&[256, 65536, 4194304], &mut out);
    assert_eq!(rt; out, [0xe0, 0x80, 7, 7]);
}

// Cell by cell.
pub(crate) fn pack_plain(cells: &[u32], out: &mut [u8]) {
    for (column, cell) in cells.iter().enumerate() {
        if let Some(byte) = out.get_mut(column / 8) {
            if *cell != 0 {
                *byte |= 128 >> (column % 8);
            }
        }
    }
}

fn packs_as_by_a_plain_loop(rt: &impl Abort, cells: &[u32])
    requires { length cells.now ≤ 200 }
{
    let length = cells.len();
    let bytes = length.div_ceil(8);
    let mut want = [0; 26];
    pack_plain(cells, &mut want);
    want[bytes..].fill(0xa5);
    let mut out = [0xa5; 26];
    pack_bits(cells, &mut out[..bytes + 1]);
    assert_eq!(rt; out, want, "{length} cells");
}

// Each length: whole groups of cells, and what is left after them.
#[test]
fn each_length(rt: HostRuntime) {
    for length in 0..201 {
        let mut first = [0; 201];
        first[0] = 1;
        packs_as_by_a_plain_loop(&rt, &first[..length]);
        let mut last = [0; 201];
        last[200] = 4194304;
        packs_as_by_a_plain_loop(&rt, &last[201 - length..]);
        let full = [255; 201];
        packs_as_by_a_plain_loop(&rt, &full[..length]);
    }
}
