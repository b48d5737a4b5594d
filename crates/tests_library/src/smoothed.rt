//! Smoothed pictures, by the call that the program makes. The colours are those of tests/reference.
use crate::pages::{LINE, job_at};
use crate::streams::{Reader, Writer};
use plotraster::{
    Carousel, Dots, Fault, Form, Job, Outcome, OverRead, OverWrite, Page, PageChoice, PenSet,
    Picture, PngJob, Reading, RowChoice, Setup, Smoothing, Task, Turn, Unwatched, naming_of,
    run_task,
};
use std::alloc::Global;
use std::test::Fail;

// Lines of three pens. At 60 dots per inch the page has 5 by 4 pixels, and at 120 it has 9 by 9.
const LINES: &[u8] = b"SP2;PU0,20;PD77,20;SP3;PU60,0;PD60,72;SP1;PU77,60;PD0,60;";

// Their pixmap, smoothed twice.
const PIXMAP: [u8; 71] = [
    0x50, 0x36, 0x0a, 0x35, 0x20, 0x34, 0x0a, 0x32, 0x35, 0x35, 0x0a, 0x80, 0x80, 0x80, 0x80, 0x80,
    0x80, 0x80, 0x80, 0x80, 0x00, 0x80, 0x00, 0xbf, 0xbf, 0xbf, 0xff, 0xff, 0xff, 0xff, 0xff, 0xff,
    0xff, 0xff, 0xff, 0x00, 0xff, 0x00, 0xff, 0xff, 0xff, 0xff, 0x80, 0x80, 0xff, 0x80, 0x80, 0xff,
    0x80, 0x80, 0x00, 0xff, 0x00, 0xff, 0xbf, 0xbf, 0xff, 0x80, 0x80, 0xff, 0x80, 0x80, 0xff, 0x80,
    0x80, 0x00, 0xff, 0x00, 0xff, 0xbf, 0xbf,
];

// What a run answers, and what is left of its reader and its writer.
#[derive(Drop)]
struct Answered<'a> {
    answer: Result<Outcome, Fault>,
    reader: Reader<'a>,
    writer: Writer,
}

fn run<'a>(alloc: Global, task: &Task, plot: &'a [u8], writer: Writer) -> Answered<'a> {
    let mut source = OverRead::new(Reader::new(plot));
    let (sink, answer) = run_task(
        alloc,
        Setup {
            reading: Reading::Core,
            carousel: &Carousel::empty(),
            choice: PageChoice::GIVEN,
            turn: Turn::None,
            counts: false,
        },
        task,
        naming_of(""),
        &mut source,
        OverWrite::new(writer),
        &mut Unwatched,
    );
    Answered {
        answer,
        reader: source.into_inner(),
        writer: sink.into_inner(),
    }
}

fn smoothing(times: u32) -> Result<Smoothing, Fail> {
    Ok(Smoothing::new(times).ok_or("a smoothing")?)
}

// The pixmap of these lines from a row on, smoothed twice.
fn pixmap_from(first_row: u32) -> Result<Task, Fail> {
    let job = Job {
        page: Page::new(77, 72, 0, 0)?,
        dots: Dots::new(60).ok_or("a resolution")?,
        pens: PenSet::all(),
        band: 3,
        first_row,
        form: Form::Ppm,
    };
    Ok(Task::Picture(Picture::Rows {
        job,
        rows: RowChoice::all(smoothing(2)?),
    }))
}

#[test]
fn a_smoothed_pixmap(rt: HostRuntime) -> Result<(), Fail> {
    let alloc = rt.alloc();
    for row in 0..5 {
        let run = run(alloc, &pixmap_from(row)?, LINES, Writer::new(alloc));
        let outcome = run.answer?;
        let before = if row == 0 { 0 } else { 11 + 15 * row as usize };
        assert!(rt;
            Some(run.writer.bytes.as_slice()) == PIXMAP.get(before..),
            "{row}"
        );
        assert_eq!(rt; (outcome.done.rows, outcome.done.strokes), (4 - row, 3));
    }
    Ok(())
}

#[test]
fn a_smoothed_pixmap_broken_off(rt: HostRuntime) -> Result<(), Fail> {
    let alloc = rt.alloc();
    let task = pixmap_from(0)?;
    for room in 0..PIXMAP.len() {
        let run = run(alloc, &task, LINES, Writer::ending_after(alloc, room));
        let Err(Fault::Write { row, whole, bytes }) = run.answer else {
            return Err("it is not broken off".into());
        };
        assert!(rt;
            Some(run.writer.bytes.as_slice()) == PIXMAP.get(..room),
            "{room}"
        );
        let rows = if room < 26 { 0 } else { (room - 11) / 15 };
        let before = if rows == 0 { 0 } else { 11 + 15 * rows };
        assert_eq!(rt;
            (row, whole, bytes),
            (rows as u32, before as u64, room as u64)
        );
    }
    Ok(())
}

#[test]
fn forms_without_shades_are_not_smoothed(rt: HostRuntime) -> Result<(), Fail> {
    let alloc = rt.alloc();
    let task = Task::Picture(Picture::Rows {
        job: job_at(Form::Pbm, 127)?,
        rows: RowChoice::all(smoothing(8)?),
    });
    let run = run(alloc, &task, LINE, Writer::new(alloc));
    assert!(rt; run.answer.is_ok());
    let bitmap = b"P4\n8 8\n\x00\x00\x00\x00\xff\x00\x00\x00";
    assert_eq!(rt; run.writer.bytes.as_slice(), bitmap.as_slice());
    Ok(())
}

// Painted at more than 1200 dots per inch: nothing is read or written.
#[test]
fn smoothed_too_finely(rt: HostRuntime) -> Result<(), Fail> {
    let alloc = rt.alloc();
    let job = job_at(Form::Ppm, 601)?;
    let smoothing = smoothing(2)?;
    let png = PngJob {
        page: job.page,
        dots: job.dots,
        pens: job.pens,
        smoothing,
    };
    let rows = RowChoice::all(smoothing);
    for picture in [Picture::Rows { job, rows }, Picture::Png(png)] {
        let run = run(alloc, &Task::Picture(picture), LINE, Writer::new(alloc));
        assert!(rt; matches!(run.answer, Err(Fault::Resolution)));
        assert_eq!(rt; (run.reader.calls, run.writer.bytes.len()), (0, 0));
    }
    Ok(())
}

// The depth and the colour type of a smoothed PNG of a plot.
fn layout_of(alloc: Global, plot: &[u8]) -> Result<(u8, u8), Fail> {
    let job = job_at(Form::Ppm, 127)?;
    let task = Task::Picture(Picture::Png(PngJob {
        page: job.page,
        dots: job.dots,
        pens: job.pens,
        smoothing: smoothing(2)?,
    }));
    let run = run(alloc, &task, plot, Writer::new(alloc));
    run.answer?;
    let bytes = run.writer.bytes.as_slice();
    let depth = bytes.get(24).ok_or("a depth")?;
    let colour_type = bytes.get(25).ok_or("a colour type")?;
    Ok((*depth, *colour_type))
}

// Black lines are grey; yellow ones, of as much red as green, have a palette.
#[test]
fn smoothed_layouts(rt: HostRuntime) -> Result<(), Fail> {
    let alloc = rt.alloc();
    let black = layout_of(alloc, b"SP1;PU0,20;PD60,30;")?;
    assert_eq!(rt; black, (8, 0));
    let yellow = layout_of(alloc, b"SP4;PU0,20;PD60,30;")?;
    assert_eq!(rt; yellow.1, 3);
    Ok(())
}
