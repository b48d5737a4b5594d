//! Pictures and reports that are broken off after each number of their bytes.
use crate::pages::{CROSSING, LINE, eight_by_eight, job_at};
use crate::runs::{Asked, drawn, has_picture, run};
use crate::streams::{Reader, Writer};
use plotraster::{Fault, Form, Job};
use std::alloc::Global;
use std::process::Abort;
use std::test::Fail;

// A plot, what is asked of it, and all the bytes that it answers.
#[derive(Drop)]
struct Whole<'a> {
    plot: &'a [u8],
    asked: Asked,
    bytes: &'a [u8],
}

// Breaks it off by a writer that has no room for all of it. The fault names the first row that is not whole, and the
// bytes before that row.
fn is_broken_off_by(
    rt: &impl Abort,
    alloc: Global,
    job: &Job,
    whole: &Whole<'_>,
    writer: Writer,
    row: u32,
    before: usize,
) -> Result<(), Fail> {
    let room = writer.room;
    let outcome = run(alloc, whole.asked, job, Reader::new(whole.plot), writer);
    let Err(
        Fault::Write {
            row: its_row,
            whole: its_whole,
            bytes,
        },
    ) = outcome.answer
    else {
        return Err("it is not broken off".into());
    };
    assert_eq!(rt; its_row, row, "{room}");
    assert_eq!(rt; its_whole, before as u64, "{room}");
    assert_eq!(rt; bytes, room as u64);
    assert!(rt;
        Some(outcome.writer.bytes.as_slice()) == whole.bytes.get(..room),
        "{room}"
    );
    assert_eq!(rt; outcome.write_failures, 1);
    Ok(())
}

// Breaks a picture off after each number of its bytes, and goes on from the row that the fault names. The first of
// `rows` rows ends after `end` bytes.
fn is_broken_off_anywhere(
    rt: &impl Abort,
    alloc: Global,
    job: &Job,
    plot: &[u8],
    end: usize,
    row_bytes: usize,
    rows: u32,
) -> Result<(), Fail> {
    let picture = drawn(alloc, job, plot)?;
    let whole = Whole {
        plot,
        asked: Asked::Picture,
        bytes: picture.as_slice(),
    };
    let mut rest = *job;
    rest.first_row = 0;
    let (mut before, mut next) = (0, end);
    for room in 0..picture.len() {
        if room == next && rest.first_row < rows {
            rest.first_row = rest.first_row.wrapping_add(1);
            before = room;
            next = room.wrapping_add(row_bytes);
        }
        let writer = Writer::ending_after(alloc, room);
        is_broken_off_by(rt, alloc, job, &whole, writer, rest.first_row, before)?;
        let wanted = whole.bytes.get(before..).unwrap_or_default();
        has_picture(rt, alloc, &rest, plot, wanted)?;
    }
    Ok(())
}

#[test]
fn a_pixmap_broken_off_anywhere(rt: HostRuntime) -> Result<(), Fail> {
    let job = eight_by_eight(Form::Ppm)?;
    assert_eq!(rt; drawn(rt.alloc(), &job, CROSSING)?.len(), 203);
    is_broken_off_anywhere(&rt, rt.alloc(), &job, CROSSING, 35, 24, 8)
}

// Three bytes a row, and bands of one row, of several and a last one of fewer, and of all.
#[test]
fn a_bitmap_broken_off_anywhere(rt: HostRuntime) -> Result<(), Fail> {
    let mut job = job_at(Form::Pbm, 381)?;
    for band in [1, 7, 64] {
        job.band = band;
        assert_eq!(rt; drawn(rt.alloc(), &job, CROSSING)?.len(), 81);
        is_broken_off_anywhere(&rt, rt.alloc(), &job, CROSSING, 12, 3, 24)?;
    }
    Ok(())
}

const LINE_IN_PCL: &[u8] = b"\x1bE\x1b*t75R\x1b*r5S\x1b*r5T\x1b*r0A\x1b*b0M\
\x1b*b1W\x00\x1b*b1W\x00\x1b*b1W\xf8\x1b*b1W\x00\x1b*b1W\x00\x1b*rB\x1bE";

// A row is whole after its last byte, which follows its command.
#[test]
fn a_printer_that_stops_anywhere(rt: HostRuntime) -> Result<(), Fail> {
    let job = job_at(Form::Pcl, 75)?;
    has_picture(&rt, rt.alloc(), &job, LINE, LINE_IN_PCL)?;
    is_broken_off_anywhere(&rt, rt.alloc(), &job, LINE, 34, 6, 5)
}

// The rows above the first mark have no bytes, so they count as written.
#[test]
fn marks_broken_off_in_their_first_line(rt: HostRuntime) -> Result<(), Fail> {
    let whole = Whole {
        plot: LINE,
        asked: Asked::Picture,
        bytes: b"4 0 1 000",
    };
    let writer = Writer {
        piece: 1,
        room: 9,
        ..Writer::new(rt.alloc())
    };
    let marks = eight_by_eight(Form::Marks)?;
    is_broken_off_by(&rt, rt.alloc(), &marks, &whole, writer, 4, 0)
}

const SKIPPED: Whole<'static> = Whole {
    plot: b"ZZ1,2;CO\"a;b\";PA1",
    asked: Asked::Report,
    bytes: b"page 64 64 0 0\nstrokes 0\nnote 0 skipped ZZ\nnote 6 skipped CO\nnote 14 bad PA\n",
};

#[test]
fn a_report_broken_off_anywhere(rt: HostRuntime) -> Result<(), Fail> {
    let job = eight_by_eight(Form::Pbm)?;
    for room in 0..SKIPPED.bytes.len() {
        let writer = Writer::ending_after(rt.alloc(), room);
        is_broken_off_by(&rt, rt.alloc(), &job, &SKIPPED, writer, 0, 0)?;
    }
    Ok(())
}
