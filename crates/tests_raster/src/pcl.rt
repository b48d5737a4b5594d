// PCL pictures, byte by byte: whole, from buffers of each length, and over sinks that fail.
ghost use Rattle.std.specs.Prelude.{◌≡◌, ◌-◌, ◌^◌, ◌<◌, ◌≤◌, All, length};
ghost use Rattle.picture_out.specs.declared.form.Form.TheVariants.{Pcl};
ghost use Rattle.picture_out.specs.Rooms.{room_of};

use crate::forms::{CELLS, TABLE, narrow_sink, pack_plain};
use devices::{OverWrite, Sink, WriteFault};
use picture_out::{Cells, Form, put_foot, put_head, put_row, room, row_space, takes_resolution};
use std::test::Fail;

// A picture of five by five pixels at 75 dots per inch, whose third row is black.
const PICTURE: &[u8] = b"\
\x1b\x45\
\x1b\x2a\x74\x37\x35\x52\
\x1b\x2a\x72\x35\x53\
\x1b\x2a\x72\x35\x54\
\x1b\x2a\x72\x30\x41\
\x1b\x2a\x62\x30\x4d\
\x1b\x2a\x62\x31\x57\x00\
\x1b\x2a\x62\x31\x57\x00\
\x1b\x2a\x62\x31\x57\xf8\
\x1b\x2a\x62\x31\x57\x00\
\x1b\x2a\x62\x31\x57\x00\
\x1b\x2a\x72\x42\
\x1b\x45";

// How many bytes its parts have.
const HEAD: usize = 28;

const ROW: usize = 6;

const FOOT: usize = 6;

// Writes that picture.
fn write_five<K: Sink>(buffer: &mut [u8], sink: &mut K) -> Result<(), WriteFault>
    requires sound { (K.state sink.old).faults < 2 ^ 64 - 1 }
    requires room { 1 ≤ length buffer.old }
{
    put_head(Form::Pcl, 75, 5, 5, sink)?;
    put_row(Form::Pcl, 0, Cells::new(&[0; 5]), &TABLE, buffer, sink)?;
    put_row(Form::Pcl, 1, Cells::new(&[0; 5]), &TABLE, buffer, sink)?;
    put_row(
        Form::Pcl,
        2,
        Cells::new(&[1, 1, 2, 4, 1]),
        &TABLE,
        buffer,
        sink,
    )?;
    put_row(Form::Pcl, 3, Cells::new(&[0; 5]), &TABLE, buffer, sink)?;
    put_row(Form::Pcl, 4, Cells::new(&[0; 5]), &TABLE, buffer, sink)?;
    put_foot(Form::Pcl, sink)?;
    Ok(())
}

#[test]
fn a_picture(rt: HostRuntime) -> Result<(), Fail> {
    let mut sink = OverWrite::new(Vec::new(rt.alloc()));
    let mut buffer = [9; 1];
    assert_eq!(rt; room(Form::Pcl, 5), 1);
    write_five(&mut buffer, &mut sink)?;
    assert_eq!(rt; sink.failures(), 0);
    assert_eq!(rt; sink.into_inner().as_slice(), PICTURE);
    Ok(())
}

// The head and the foot take a piece each. A row takes one if the buffer has place for its command
// and its byte, otherwise two.
#[test]
fn rows_in_one_piece(rt: HostRuntime) -> Result<(), Fail> {
    let mut buffer = [9; 20];
    for (size, puts) in [
        (room(Form::Pcl, 5), 12),
        (ROW - 1, 12),
        (ROW, 7),
        (row_space(Form::Pcl, 5), 7),
    ] {
        assert!(rt; 1 <= size && size <= 20);
        let mut sink = narrow_sink(rt.alloc(), 1000, 1000);
        write_five(&mut buffer[..size], &mut sink)?;
        assert_eq!(rt; sink.bytes.as_slice(), PICTURE, "a buffer of {size}");
        assert_eq!(rt; sink.puts, puts, "a buffer of {size}");
    }
    Ok(())
}

#[test]
fn one_byte_a_call(rt: HostRuntime) -> Result<(), Fail> {
    let mut buffer = [9; 20];
    for size in [1, 20] {
        let mut sink = narrow_sink(rt.alloc(), 1000, 1);
        write_five(&mut buffer[..size], &mut sink)?;
        assert_eq!(rt; sink.bytes.as_slice(), PICTURE);
        assert_eq!(rt; sink.puts, 64);
    }
    Ok(())
}

// The bytes that the part had in which a sink failed that takes `limit` bytes.
fn bytes_of_part(limit: usize) -> usize {
    if limit < HEAD {
        limit
    } else if limit < PICTURE.len() - FOOT {
        (limit - HEAD) % ROW
    } else {
        limit - (PICTURE.len() - FOOT)
    }
}

// Nothing follows a failure in the head, in a row or in the foot, also if the sink would go on.
#[test]
fn a_sink_that_fails(rt: HostRuntime) -> Result<(), Fail> {
    let mut buffer = [9; 20];
    for limit in 0..PICTURE.len() {
        for step in [1, 3, 1000] {
            for (size, faults, once) in [
                (1, true, true),
                (1, false, false),
                (20, false, true),
                (20, true, false),
            ] {
                let mut sink = narrow_sink(rt.alloc(), limit, step);
                sink.faults = faults;
                sink.once = once;
                let fault = write_five(&mut buffer[..size], &mut sink)
                    .err()
                    .ok_or("written")?;
                assert_eq!(rt; fault.bytes(), bytes_of_part(limit) as u64, "limit {limit}");
                assert_eq!(rt; sink.bytes.as_slice(), &PICTURE[..limit]);
                assert_eq!(rt; sink.failures, 1);
            }
        }
    }
    Ok(())
}

#[test]
fn a_row_of_two_bytes(rt: HostRuntime) -> Result<(), Fail> {
    let mut buffer = [9; 20];
    for size in [2, 20] {
        let mut sink = OverWrite::new(Vec::new(rt.alloc()));
        put_row(
            Form::Pcl,
            7,
            Cells::new(&CELLS),
            &TABLE,
            &mut buffer[..size],
            &mut sink,
        )?;
        assert_eq!(rt;
            sink.into_inner().as_slice(),
            b"\x1b*b2W\x65\x80".as_slice()
        );
    }
    Ok(())
}

// The bytes of a row, from a buffer of this length, with their count.
fn written(rt: &HostRuntime, cells: &[u32], size: usize) -> Result<(Vec<u8>, u64), Fail>
    requires width { length cells.now ≤ 90 }
    requires inked { All (λ cell. cell ≤ 4) cells.now }
    requires room { room_of Pcl (length cells.now) ≤ size }
{
    let mut buffer = vec![in rt.alloc(); 9u8; size]?;
    let mut sink = OverWrite::new(Vec::new(rt.alloc()));
    let row = Cells::new(cells);
    let count = put_row(Form::Pcl, 9, row, &TABLE, buffer.as_mut_slice(), &mut sink)?;
    Ok((sink.into_inner(), count))
}

// Up to twelve bytes, so that their number has one digit or two.
#[test]
fn widths(rt: HostRuntime) -> Result<(), Fail> {
    let black = [1; 90];
    for width in 0..91 {
        let cells = &black[..width];
        let bytes = width.div_ceil(8);
        let mut bits = [0; 12];
        pack_plain(cells, &mut bits);
        let command = format!(in rt.alloc(); "\u{1b}*b{bytes}W")?;
        let mut want = Vec::from_slice(rt.alloc(), command.as_str().as_bytes())?;
        want.extend_from_slice(&bits[..bytes])?;
        let columns = width as u32;
        for size in [room(Form::Pcl, columns), row_space(Form::Pcl, columns)] {
            let (got, count) = written(&rt, cells, size)?;
            assert_eq!(rt; got.as_slice(), want.as_slice(), "width {width}");
            assert_eq!(rt; count, want.len() as u64, "width {width}");
        }
    }
    Ok(())
}

#[test]
fn the_longest_head(rt: HostRuntime) -> Result<(), Fail> {
    let mut sink = OverWrite::new(Vec::new(rt.alloc()));
    put_head(
        Form::Pcl,
        4_294_967_295,
        4_294_967_294,
        4_294_967_293,
        &mut sink,
    )?;
    assert_eq!(rt;
        sink.into_inner().as_slice(),
        b"\x1bE\x1b*t4294967295R\x1b*r4294967294S\x1b*r4294967293T\x1b*r0A\x1b*b0M".as_slice()
    );
    Ok(())
}

#[test]
fn resolutions(rt: HostRuntime) -> Result<(), Fail> {
    let mut taken = Vec::new(rt.alloc());
    for dots in 10..1201 {
        if takes_resolution(Form::Pcl, dots) {
            taken.push(dots)?;
        }
        for form in Form::ALL {
            assert!(rt; form == Form::Pcl || takes_resolution(form, dots), "{dots}");
        }
    }
    assert_eq!(rt; taken.as_slice(), [75, 100, 150, 200, 300, 600].as_slice());
    Ok(())
}
