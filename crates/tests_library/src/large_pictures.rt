//! Pictures of too many pixels, and of as many as there may be.
use crate::cases::text_of;
use crate::runs::drawn_as;
use plotraster::{
    Carousel, Dots, Encoding, Form, Job, OverRead, OverWrite, Page, PageChoice, PenSet, Picture,
    PngJob, Reading, RowChoice, Setup, Smoothing, Task, Turn, Unwatched, naming_of, run_task,
};
use std::alloc::Global;
use std::test::Fail;

const FULL: Reading = Reading::Full {
    sheet: 1,
    encoding: Encoding::ByPlot,
};

// A page of this size, which may be that of a roll.
fn page_of(width: u32, height: u32) -> Result<Page, Fail> {
    Ok(Page::roll(width, height, 0, 0).ok_or("a page")?)
}

// A job in marks on a page of this size, with 776 dots per inch: 523,711 units are 400,000 pixels.
fn job_on(width: u32, height: u32) -> Result<Job, Fail> {
    Ok(Job {
        page: page_of(width, height)?,
        dots: Dots::new(776).ok_or("a resolution")?,
        pens: PenSet::all(),
        band: 64,
        first_row: 0,
        form: Form::Marks,
    })
}

// A dot on the left, and one on the right of a page of 523,711 units.
const DOTS: &[u8] = b"PW0;PU0,0;PD;PU523711,0;PD;";

// Sides of a page, the first row, and the height of a band.
const JOBS: [(u32, u32, u32, u32); 8] = [
    (523_711, 64, 48, 64),
    (523_712, 64, 48, 64),
    (64, 523_711, 399_999, 64),
    (64, 523_712, 399_999, 64),
    (523_711, 64, 48, 0),
    (523_712, 64, 48, 0),
    (523_711, 64, 50, 64),
    (64, 523_712, 500_000, 64),
];

const ANSWERS: &str = "\
48 0 1 000000
48 399999 1 000000
Pixels
399999 0 1 000000
Pixels
Paint(Band)
Pixels
Paint(Row)
Pixels
";

// Too many pixels come before a wrong height of bands, and before a first row past the last.
#[test]
fn columns_and_rows(rt: HostRuntime) -> Result<(), Fail> {
    let mut text = String::new(rt.alloc());
    for (width, height, first_row, band) in JOBS {
        let job = Job {
            first_row,
            band,
            ..job_on(width, height)?
        };
        match drawn_as(rt.alloc(), FULL, &job, DOTS) {
            Ok(picture) => text.push_str(text_of(picture.as_slice())?)?,
            Err(fault) => write!(text, "{fault:?}\n")?,
        }
    }
    assert_eq!(rt; text.as_str(), ANSWERS);
    Ok(())
}

// The first row of the marks of a job, smoothed so if another form is asked for.
fn rows_of(job: Job, form: Form, times: u32) -> Result<Picture, Fail> {
    Ok(Picture::Rows {
        job: Job { form, ..job },
        rows: RowChoice {
            smoothing: Smoothing::new(times).ok_or("a smoothing")?,
            most_rows: Some(1),
        },
    })
}

fn png_of(job: Job) -> Picture {
    Picture::Png(PngJob {
        page: job.page,
        dots: job.dots,
        pens: job.pens,
        smoothing: Smoothing::NONE,
    })
}

// Adds what a run answers that writes a picture of a plot: how many rows it has, or its fault and how many bytes are written.
fn tell(
    alloc: Global,
    text: &mut String,
    picture: Picture,
    choice: PageChoice,
    plot: &[u8],
) -> Result<(), Fail> {
    let (sink, answer) = run_task(
        alloc,
        Setup {
            reading: FULL,
            carousel: &Carousel::empty(),
            choice,
            turn: Turn::None,
            counts: false,
        },
        &Task::Picture(picture),
        naming_of(""),
        &mut OverRead::new(plot),
        OverWrite::new(Vec::new(alloc)),
        &mut Unwatched,
    );
    let bytes = sink.into_inner().len();
    match answer {
        Ok(outcome) => write!(text, "{} rows\n", outcome.done.rows)?,
        Err(fault) => write!(text, "{fault:?}, {bytes} bytes\n")?,
    }
    Ok(())
}

const WRITTEN: &str = "\
Pixels, 0 bytes
Pixels, 0 bytes
Plot(OffRange { at: 0 }), 0 bytes
Plot(OffRange { at: 0 }), 0 bytes
";

// A plot that is refused comes before.
#[test]
fn pictures_of_each_kind(rt: HostRuntime) -> Result<(), Fail> {
    let alloc = rt.alloc();
    let mut text = String::new(alloc);
    let job = job_on(64, 523_712)?;
    for plot in [b"PU;".as_slice(), b"PU8388607.9,0;".as_slice()] {
        tell(
            alloc,
            &mut text,
            rows_of(job, Form::Marks, 1)?,
            PageChoice::GIVEN,
            plot,
        )?;
        tell(alloc, &mut text, png_of(job), PageChoice::GIVEN, plot)?;
    }
    assert_eq!(rt; text.as_str(), WRITTEN);
    Ok(())
}

const AROUND: PageChoice = PageChoice {
    margin: Some(0),
    ..PageChoice::GIVEN
};

const FITTED: &str = "\
Pixels, 0 bytes
Pixels, 0 bytes
1 rows
49 rows
";

// The page that is shown counts: a long one around a drawing on a short one, and a short one.
#[test]
fn pages_around_drawings(rt: HostRuntime) -> Result<(), Fail> {
    let alloc = rt.alloc();
    let mut text = String::new(alloc);
    for (width, plot) in [
        (64, b"PW0;PU0,0;PD523712,0;".as_slice()),
        (523_712, b"PW0;PU0,0;PD64,0;".as_slice()),
    ] {
        let job = job_on(width, 64)?;
        tell(
            alloc,
            &mut text,
            rows_of(job, Form::Marks, 1)?,
            AROUND,
            plot,
        )?;
        tell(alloc, &mut text, png_of(job), AROUND, plot)?;
    }
    assert_eq!(rt; text.as_str(), FITTED);
    Ok(())
}

const SIZED: PageChoice = PageChoice {
    pixels: Some(16),
    ..PageChoice::GIVEN
};

const SMALL: &str = "\
1 rows
1 rows
1 rows
";

// The resolution that the picture gets counts, which is 1 dot per inch for so few pixels, and of a smoothed picture the size
// that is written, not that of the finer one.
#[test]
fn resolutions_of_pictures(rt: HostRuntime) -> Result<(), Fail> {
    let alloc = rt.alloc();
    let mut text = String::new(alloc);
    let job = job_on(523_712, 64)?;
    tell(alloc, &mut text, rows_of(job, Form::Ppm, 1)?, SIZED, b"")?;
    tell(alloc, &mut text, png_of(job), SIZED, b"")?;
    let coarse = Job {
        dots: Dots::new(300).ok_or("a resolution")?,
        ..job
    };
    tell(
        alloc,
        &mut text,
        rows_of(coarse, Form::Ppm, 3)?,
        PageChoice::GIVEN,
        b"",
    )?;
    assert_eq!(rt; text.as_str(), SMALL);
    Ok(())
}
