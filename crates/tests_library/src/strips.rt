//! Strips of pictures, by the call that the program makes: some rows each, and joined the whole picture.
use crate::pages::{CROSSING, LINE, eight_by_eight};
use conversion::{Request, draw, write};
use plotraster::{
    Carousel, Dots, Exact, Fault, Form, Gauge, Job, Outcome, OverRead, OverWrite, Page, PageChoice,
    PenSet, Picture, Reading, RowChoice, Setup, Smoothing, Task, Turn, Unwatched, naming_of,
    run_task,
};
use std::alloc::Global;
use std::process::Abort;
use std::test::Fail;

// Lines of three pens. At 150 dots per inch the page has 11 by 11 pixels, and at 300 it has 23 by 21.
const LINES: &[u8] = b"SP2;PU0,20;PD77,20;SP3;PU60,0;PD60,72;SP1;PU77,60;PD0,60;";

const ROWS: u32 = 11;

// A picture that is asked for from row 0 on.
fn job_of(form: Form) -> Result<Job, Fail> {
    Ok(Job {
        page: Page::new(77, 72, 0, 0)?,
        dots: Dots::new(150).ok_or("a resolution")?,
        pens: PenSet::all(),
        band: 3,
        first_row: 0,
        form,
    })
}

// What is written of at most so many rows of it from a row on, and what is told of them.
fn strip_of(
    alloc: Global,
    job: &Job,
    smoothing: Smoothing,
    plot: &[u8],
    first_row: u32,
    most_rows: Option<u32>,
) -> (Vec<u8>, Result<Outcome, Fault>) {
    let task = Task::Picture(Picture::Rows {
        job: Job { first_row, ..*job },
        rows: RowChoice {
            smoothing,
            most_rows,
        },
    });
    let (sink, answer) = run_task(
        alloc,
        Setup {
            reading: Reading::Core,
            carousel: &Carousel::empty(),
            choice: PageChoice::GIVEN,
            turn: Turn::None,
            counts: false,
        },
        &task,
        naming_of(""),
        &mut OverRead::new(plot),
        OverWrite::new(Vec::new(alloc)),
        &mut Unwatched,
    );
    (sink.into_inner(), answer)
}

// Whether strips of so many rows, joined, are the whole picture; each has as many rows as it says.
fn are_joined(
    rt: &impl Abort,
    alloc: Global,
    job: &Job,
    smoothing: Smoothing,
    height: u32,
) -> Result<(), Fail> {
    let (whole, answer) = strip_of(alloc, job, smoothing, LINES, 0, None);
    assert_eq!(rt; answer?.done.rows, ROWS);
    let mut joined: Vec<u8> = Vec::new(alloc);
    for row in 0..ROWS {
        if row % height.max(1) != 0 {
            continue;
        }
        let (strip, answer) = strip_of(alloc, job, smoothing, LINES, row, Some(height));
        let done = answer?.done;
        assert_eq!(rt; (done.rows, done.strokes), (height.min(ROWS - row), 3));
        assert_eq!(rt; done.bytes, strip.len() as u64);
        for byte in strip.as_slice() {
            joined.push(*byte)?;
        }
    }
    assert!(rt; joined.as_slice() == whole.as_slice(), "{height}");
    Ok(())
}

#[test]
fn strips_of_each_height(rt: HostRuntime) -> Result<(), Fail> {
    let alloc = rt.alloc();
    let twice = Smoothing::new(2).ok_or("a smoothing")?;
    for height in [1, 2, 3, 4, 5, 7, 10, 11, 12, 400_000] {
        for form in [Form::Marks, Form::Pbm, Form::Ppm, Form::Pcl] {
            are_joined(&rt, alloc, &job_of(form)?, Smoothing::NONE, height)?;
        }
        are_joined(&rt, alloc, &job_of(Form::Ppm)?, twice, height)?;
    }
    Ok(())
}

// A first row, the most rows, and what is written of a bitmap.
const BITMAPS: [(u32, u32, &[u8]); 7] = [
    (0, 1, b"P4\n8 8\n\x10"),
    (0, 8, b"P4\n8 8\n\x10\x10\x10\x10\xff\x10\xff\x10"),
    (4, 1, b"\xff"),
    (4, 3, b"\xff\x10\xff"),
    (6, 9, b"\xff\x10"),
    (7, 1, b"\x10"),
    (8, 1, b""),
];

#[test]
fn strips_of_a_bitmap(rt: HostRuntime) -> Result<(), Fail> {
    let job = eight_by_eight(Form::Pbm)?;
    for (first, most, bytes) in BITMAPS {
        let (strip, answer) = strip_of(
            rt.alloc(),
            &job,
            Smoothing::NONE,
            CROSSING,
            first,
            Some(most),
        );
        assert!(rt; answer.is_ok());
        assert!(rt; strip.as_slice() == bytes, "{first} {most}");
    }
    let (strip, answer) = strip_of(rt.alloc(), &job, Smoothing::NONE, CROSSING, 9, Some(1));
    assert!(rt; matches!(answer, Err(Fault::Paint(_))));
    assert_eq!(rt; strip.len(), 0);
    Ok(())
}

// Only row 0 has the header of PCL, and only the last row its foot, which follows no row, too.
#[test]
fn feet_of_strips(rt: HostRuntime) -> Result<(), Fail> {
    let job = job_of(Form::Pcl)?;
    for (first, most, begins, ends) in [
        (0, 1, true, false),
        (0, 10, true, false),
        (1, 9, false, false),
        (1, 10, false, true),
        (10, 1, false, true),
        (11, 1, false, true),
        (0, 11, true, true),
    ] {
        let (strip, answer) = strip_of(rt.alloc(), &job, Smoothing::NONE, LINES, first, Some(most));
        assert!(rt; answer.is_ok());
        let bytes = strip.as_slice();
        assert_eq!(rt; bytes.starts_with(b"\x1bE"), begins, "{first} {most}");
        assert_eq!(rt; bytes.ends_with(b"\x1b*rB\x1bE"), ends, "{first} {most}");
    }
    Ok(())
}

// How many tests a strip takes.
fn tests_of(alloc: Global, picture: &Picture) -> Result<u64, Fail> {
    let carousel = Carousel::empty();
    let setup = Setup {
        reading: Reading::Core,
        carousel: &carousel,
        choice: PageChoice::GIVEN,
        turn: Turn::None,
        counts: false,
    };
    let request = Request::new(setup, picture, naming_of(""))?;
    let drawing = draw(alloc, &request, &mut OverRead::new(LINE))?;
    let mut gauge = Exact::new();
    let sink = OverWrite::new(Vec::new(alloc));
    let (_, answer) = write(
        alloc,
        &request,
        &drawing,
        0,
        &mut gauge,
        sink,
        &mut Unwatched,
    );
    answer?;
    Ok(gauge.tests())
}

// Rows that are not written are not painted: a strip above or below the line takes no test, in bands of any height.
#[test]
fn strips_beside_a_line(rt: HostRuntime) -> Result<(), Fail> {
    let twice = Smoothing::new(2).ok_or("a smoothing")?;
    for band in [1, 3, 4096] {
        for (form, smoothing) in [
            (Form::Marks, Smoothing::NONE),
            (Form::Pbm, Smoothing::NONE),
            (Form::Ppm, twice),
        ] {
            for (first_row, most, takes) in [
                (0, 3, false),
                (0, 5, true),
                (4, 1, true),
                (6, 2, false),
            ] {
                let job = Job {
                    band,
                    first_row,
                    ..eight_by_eight(form)?
                };
                let rows = RowChoice {
                    smoothing,
                    most_rows: Some(most),
                };
                let tests = tests_of(rt.alloc(), &Picture::Rows { job, rows })?;
                assert_eq!(rt; tests > 0, takes, "{first_row} {most} {band}");
            }
        }
    }
    Ok(())
}
