//! Readers and writers that give or take a part a call, how often they are called, and what is left if one fails.
use crate::pages::{CROSSING, LINE, eight_by_eight, job_at};
use crate::runs::{Asked, drawn, run, told};
use crate::streams::{Reader, Writer};
use plotraster::{Form, Job};
use std::alloc::Global;
use std::io::ErrorKind;
use std::process::Abort;
use std::test::Fail;

// A band of a PBM is one write.
const WRITES_IN_BANDS: &str = "\
bands of 64: 2 writes
bands of 8: 2 writes
bands of 7: 3 writes
bands of 3: 4 writes
bands of 1: 9 writes
";

#[test]
fn a_band_of_a_pbm_is_one_write(rt: HostRuntime) -> Result<(), Fail> {
    let mut job = eight_by_eight(Form::Pbm)?;
    let whole = drawn(rt.alloc(), &job, CROSSING)?;
    let mut writes = String::new(rt.alloc());
    for band in [64, 8, 7, 3, 1] {
        job.band = band;
        let (reader, writer) = (Reader::new(CROSSING), Writer::new(rt.alloc()));
        let outcome = run(rt.alloc(), Asked::Picture, &job, reader, writer);
        assert!(rt;
            outcome.writer.bytes.as_slice() == whole.as_slice(),
            "bands of {band}"
        );
        let calls = outcome.writer.calls;
        write!(writes, "bands of {band}: {calls} writes\n")?;
    }
    assert_eq!(rt; writes.as_str(), WRITES_IN_BANDS);
    Ok(())
}

// 65,536 bytes, what is left of them, and the end.
const READ_IN_LARGE_PIECES: &str = "\
Ok(Done { rows: 8, bytes: 15, strokes: 0, areas: 0, images: 0, notes: 0 })
3 reads of at most 65536, 0 left, 0 failures, 1 ends
2 writes, 15 bytes, 0 failures
";

#[test]
fn a_plot_is_read_in_large_pieces(rt: HostRuntime) -> Result<(), Fail> {
    let reader = Reader {
        semicolons: 70_000,
        ..Reader::new(b"")
    };
    let job = eight_by_eight(Form::Pbm)?;
    let writer = Writer::new(rt.alloc());
    let found = told(rt.alloc(), Asked::Picture, &job, reader, writer)?;
    assert_eq!(rt; found.as_str(), READ_IN_LARGE_PIECES);
    Ok(())
}

const PLOTS: &str = "\
SP1;PU0,28;PD64,28;
SP1;PU0,28;PD64,28;SP2;PU28,0;PD28,64;SP1;PU0,12;PD64,12;
PU0,28;LBL\x03!
PU48,32;PD;AA32,32,37.5;
PU0,28;PE7:c?c_;ZZ
";

// What is written of a plot that comes and goes in pieces of at most so many bytes.
fn written(
    alloc: Global,
    asked: Asked,
    job: &Job,
    plot: &[u8],
    piece: usize,
) -> Result<Vec<u8>, Fail> {
    let reader = Reader {
        piece,
        ..Reader::new(plot)
    };
    let writer = Writer {
        piece,
        ..Writer::new(alloc)
    };
    let outcome = run(alloc, asked, job, reader, writer);
    outcome.answer?;
    Ok(outcome.writer.bytes)
}

// Fails unless a plot that comes and goes byte by byte has the same picture in each form, and the same report.
fn is_the_same_in_bytes(rt: &impl Abort, alloc: Global, plot: &[u8]) -> Result<(), Fail> {
    for form in Form::ALL {
        let job = job_at(form, 75)?;
        let wanted = drawn(alloc, &job, plot)?;
        let picture = written(alloc, Asked::Picture, &job, plot, 1)?;
        assert!(rt; picture.as_slice() == wanted.as_slice());
    }
    let job = job_at(Form::Pbm, 75)?;
    let wanted = written(alloc, Asked::Report, &job, plot, usize::MAX)?;
    let report = written(alloc, Asked::Report, &job, plot, 1)?;
    assert!(rt; report.as_slice() == wanted.as_slice());
    Ok(())
}

#[test]
fn pictures_and_reports_byte_by_byte(rt: HostRuntime) -> Result<(), Fail> {
    is_the_same_in_bytes(&rt, rt.alloc(), b"")?;
    for plot in PLOTS.lines() {
        is_the_same_in_bytes(&rt, rt.alloc(), plot.as_bytes())?;
    }
    Ok(())
}

// Wherever the source fails, at the end of the plot too, nothing is written.
#[test]
fn a_source_that_fails_anywhere(rt: HostRuntime) -> Result<(), Fail> {
    for room in 0..=LINE.len() {
        let reader = Reader {
            piece: 1,
            room,
            ..Reader::new(LINE)
        };
        let writer = Writer::new(rt.alloc());
        let found = told(
            rt.alloc(),
            Asked::Picture,
            &job_at(Form::Pbm, 75)?,
            reader,
            writer,
        )?;
        assert!(rt;
            found.as_str().starts_with("Err(Read)\n"),
            "{room}: {found}"
        );
        assert!(rt;
            found
                .as_str()
                .ends_with("\n0 writes, 0 bytes, 0 failures\n"),
            "{room}: {found}"
        );
    }
    Ok(())
}

// Every error counts, also one after which other programs ask again.
const KINDS: [ErrorKind; 2] = [ErrorKind::Other, ErrorKind::Interrupted];

const READ_ONCE: &str = "\
Err(Read)
3 reads of at most 65536, 37 left, 1 failures, 0 ends
0 writes, 0 bytes, 0 failures
";

// The third call fails, and later ones would go on.
#[test]
fn a_reader_is_not_asked_again(rt: HostRuntime) -> Result<(), Fail> {
    let job = eight_by_eight(Form::Pbm)?;
    for kind in KINDS {
        let reader = Reader {
            piece: 10,
            failing_call: 3,
            kind,
            ..Reader::new(CROSSING)
        };
        let writer = Writer::new(rt.alloc());
        let found = told(rt.alloc(), Asked::Picture, &job, reader, writer)?;
        assert_eq!(rt; found.as_str(), READ_ONCE);
    }
    Ok(())
}

// Fails unless a writer of which the third call fails so, and later ones would go on, has the head and no more.
fn is_not_asked_again(rt: &impl Abort, alloc: Global, kind: ErrorKind) -> Result<(), Fail> {
    let job = eight_by_eight(Form::Ppm)?;
    let writer = Writer {
        piece: 10,
        failing_call: 3,
        kind,
        ..Writer::new(alloc)
    };
    let outcome = run(alloc, Asked::Picture, &job, Reader::new(CROSSING), writer);
    let answer = outcome.answer;
    let answer = format!(in alloc; "{answer:?}")?;
    assert_eq!(rt;
        answer.as_str(),
        "Err(Write { row: 0, whole: 0, bytes: 11 })"
    );
    assert_eq!(rt; outcome.write_failures, 1);
    assert_eq!(rt; outcome.writer.calls, 3);
    assert!(rt; outcome.writer.bytes.as_slice() == b"P6\n8 8\n255\n".as_slice());
    Ok(())
}

#[test]
fn a_writer_is_not_asked_again(rt: HostRuntime) -> Result<(), Fail> {
    for kind in KINDS {
        is_not_asked_again(&rt, rt.alloc(), kind)?;
    }
    Ok(())
}
