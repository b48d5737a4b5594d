//! Plots and jobs that are refused, and what that leaves.
use crate::cases::has_answers;
use crate::pages::{CROSSING, LINE, eight_by_eight};
use crate::runs::{Asked, drawn, drawn_by, told};
use crate::streams::{Reader, Writer};
use plotraster::{Exact, Form, Gauge, Job, Page};
use std::alloc::Global;
use std::process::Abort;
use std::test::Fail;

const DONE: &str = "\
Ok(Done { rows: 8, bytes: 104, strokes: 1, areas: 0, images: 0, notes: 0 })
2 reads of at most 65536, 0 left, 0 failures, 1 ends
1 writes, 104 bytes, 0 failures
";

#[test]
fn the_answer_tells_what_was_done(rt: HostRuntime) -> Result<(), Fail> {
    let job = eight_by_eight(Form::Marks)?;
    let (reader, writer) = (Reader::new(LINE), Writer::new(rt.alloc()));
    let found = told(rt.alloc(), Asked::Picture, &job, reader, writer)?;
    assert_eq!(rt; found.as_str(), DONE);
    let mut gauge = Exact::new();
    drawn_by(rt.alloc(), &job, &mut gauge, LINE)?;
    assert!(rt; gauge.tests() >= 8);
    Ok(())
}

const REFUSED: &str = "\
PA70000,0;DT$;
= Err(Plot(OffRange { at: 0 })), 0 bytes

PA70000,0;IN;
= Err(Plot(OffRange { at: 0 })), 0 bytes

PA70000,0;
= Err(Plot(OffRange { at: 0 })), 0 bytes

PA1,1;PA-65537,0;
= Err(Plot(OffRange { at: 6 })), 0 bytes

SP0;PU0,65536.04;
= Err(Plot(OffRange { at: 4 })), 0 bytes";

#[test]
fn plots_that_are_refused(rt: HostRuntime) -> Result<(), Fail> {
    has_answers(&rt, rt.alloc(), Asked::Picture, REFUSED, 5)
}

// Adds to the text why a picture is refused, or that it is not.
fn tell_refusal(alloc: Global, text: &mut String, job: &Job, plot: &[u8]) -> Result<(), Fail> {
    match drawn(alloc, job, plot) {
        Ok(_) => text.push_str("drawn\n")?,
        Err(fault) => write!(text, "{fault:?}\n")?,
    }
    Ok(())
}

#[test]
fn the_edge_of_the_range(rt: HostRuntime) -> Result<(), Fail> {
    let alloc = rt.alloc();
    let mut job = eight_by_eight(Form::Marks)?;
    let mut text = String::new(alloc);
    tell_refusal(alloc, &mut text, &job, b"PA65536,0;")?;
    job.page = Page::new(64, 64, 10000, 0)?;
    tell_refusal(alloc, &mut text, &job, b"PA-75536,0;")?;
    tell_refusal(alloc, &mut text, &job, b"PA-75537,0;")?;
    assert_eq!(rt; text.as_str(), "drawn\ndrawn\nPlot(OffRange { at: 0 })\n");
    Ok(())
}

#[test]
fn jobs_that_are_refused(rt: HostRuntime) -> Result<(), Fail> {
    let mut job = eight_by_eight(Form::Marks)?;
    job.first_row = 9;
    let mut text = String::new(rt.alloc());
    for band in [64, 0, 4097] {
        job.band = band;
        tell_refusal(rt.alloc(), &mut text, &job, CROSSING)?;
    }
    assert_eq!(rt; text.as_str(), "Paint(Row)\nPaint(Band)\nPaint(Band)\n");
    Ok(())
}

// Fails unless marks of a plot of so many semicolons have this answer. It is read 65,536 bytes at a time.
fn has_answer(rt: &impl Abort, alloc: Global, size: usize, wanted: &str) -> Result<(), Fail> {
    let reader = Reader {
        semicolons: size,
        ..Reader::new(b"")
    };
    let job = eight_by_eight(Form::Marks)?;
    let found = told(alloc, Asked::Picture, &job, reader, Writer::new(alloc))?;
    assert_eq!(rt; found.as_str(), wanted);
    Ok(())
}

#[test]
fn the_longest_plot(rt: HostRuntime) -> Result<(), Fail> {
    let wanted = "\
Ok(Done { rows: 8, bytes: 0, strokes: 0, areas: 0, images: 0, notes: 0 })
1025 reads of at most 65536, 0 left, 0 failures, 1 ends
0 writes, 0 bytes, 0 failures
";
    has_answer(&rt, rt.alloc(), 67_108_864, wanted)
}

#[test]
fn a_plot_of_one_byte_too_many(rt: HostRuntime) -> Result<(), Fail> {
    let wanted = "\
Err(TooLong)
1025 reads of at most 65536, 0 left, 0 failures, 0 ends
0 writes, 0 bytes, 0 failures
";
    has_answer(&rt, rt.alloc(), 67_108_865, wanted)
}

// Of a longer plot one byte too many is read, and the rest is left.
#[test]
fn the_rest_of_a_plot_too_long(rt: HostRuntime) -> Result<(), Fail> {
    let wanted = "\
Err(TooLong)
1025 reads of at most 65536, 2 left, 0 failures, 0 ends
0 writes, 0 bytes, 0 failures
";
    has_answer(&rt, rt.alloc(), 67_108_867, wanted)
}

#[test]
fn the_pieces_of_a_plot(rt: HostRuntime) -> Result<(), Fail> {
    let wanted = "\
Ok(Done { rows: 8, bytes: 0, strokes: 0, areas: 0, images: 0, notes: 0 })
5 reads of at most 65536, 0 left, 0 failures, 1 ends
0 writes, 0 bytes, 0 failures
";
    has_answer(&rt, rt.alloc(), 200_000, wanted)
}

// Fails unless a source of which each call fails is asked once, and nothing is written.
fn is_asked_once(rt: &impl Abort, alloc: Global, asked: Asked) -> Result<(), Fail> {
    let reader = Reader {
        semicolons: 10,
        room: 0,
        ..Reader::new(b"")
    };
    let job = eight_by_eight(Form::Marks)?;
    let found = told(alloc, asked, &job, reader, Writer::new(alloc))?;
    assert_eq!(rt;
        found.as_str(),
        "Err(Read)\n\
1 reads of at most 65536, 10 left, 1 failures, 0 ends\n\
0 writes, 0 bytes, 0 failures\n"
    );
    Ok(())
}

#[test]
fn a_source_that_fails(rt: HostRuntime) -> Result<(), Fail> {
    is_asked_once(&rt, rt.alloc(), Asked::Picture)?;
    is_asked_once(&rt, rt.alloc(), Asked::Report)
}
