//! Pictures that are watched while they are written.
ghost use Rattle.std.specs.Prelude.{⊤};

use crate::pages::{CROSSING, eight_by_eight, job_at};
use crate::runs::drawn;
use crate::streams::Writer;
use plotraster::{
    Carousel, Fault, Form, Job, OverRead, OverWrite, PageChoice, Picture, PngJob, Reading, Request,
    RowChoice, Setup, Smoothing, Task, Turn, Watcher, naming_of, run_task,
};
use std::alloc::Global;
use std::process::Abort;
use std::test::Fail;

// A plot that is refused.
const OFF_RANGE: &[u8] = b"PA70000,0;";

// Keeps what it is told.
#[derive(Drop)]
struct Diary {
    told: String,
}

impl Watcher for Diary {
    ghost hears = { λ _ _ _ _. ⊤ };

    fn rows_written(&mut self, done: u32, rows: u32) {
        let _ = write!(self.told, "{done}/{rows} ");
    }
}

// A picture in a form, without smoothing.
fn rows_of(job: &Job) -> Picture {
    Picture::Rows {
        job: *job,
        rows: RowChoice::all(Smoothing::NONE),
    }
}

// Fails unless this is told of a picture of which so many bytes are written.
fn is_told(
    rt: &impl Abort,
    alloc: Global,
    job: &Job,
    room: usize,
    wanted: &str,
) -> Result<(), Fail> {
    let mut writer = Writer::new(alloc);
    writer.room = room;
    let mut diary = Diary {
        told: String::new(alloc),
    };
    let (sink, answer) = run_task(
        alloc,
        Setup {
            reading: Reading::Core,
            carousel: &Carousel::empty(),
            choice: PageChoice::GIVEN,
            turn: Turn::None,
            counts: false,
        },
        &Task::Picture(rows_of(job)),
        naming_of(""),
        &mut OverRead::new(CROSSING),
        OverWrite::new(writer),
        &mut diary,
    );
    assert_eq!(rt; diary.told.as_str(), wanted);
    let picture = drawn(alloc, job, CROSSING)?;
    let written = sink.into_inner().bytes;
    assert_eq!(rt; answer.is_ok(), written.len() == picture.len());
    assert!(rt; picture.as_slice().starts_with(written.as_slice()));
    Ok(())
}

// The bitmap has a header of 9 bytes, and 3 bytes a row.
#[test]
fn watchers_are_told_after_each_band(rt: HostRuntime) -> Result<(), Fail> {
    let mut job = job_at(Form::Pbm, 381)?;
    is_told(&rt, rt.alloc(), &job, 81, "24/24 ")?;
    job.band = 7;
    is_told(&rt, rt.alloc(), &job, 81, "7/24 14/24 21/24 24/24 ")?;
    is_told(&rt, rt.alloc(), &job, 71, "7/24 14/24 ")?;
    is_told(&rt, rt.alloc(), &job, 29, "")?;
    job.first_row = 12;
    is_told(&rt, rt.alloc(), &job, 36, "7/12 12/12 ")?;
    job.first_row = 24;
    is_told(&rt, rt.alloc(), &job, 0, "")
}

#[test]
fn watchers_of_other_forms(rt: HostRuntime) -> Result<(), Fail> {
    for form in [Form::Marks, Form::Ppm] {
        let mut job = eight_by_eight(form)?;
        job.band = 3;
        is_told(&rt, rt.alloc(), &job, 1000, "3/8 6/8 8/8 ")?;
    }
    let mut job = job_at(Form::Pcl, 75)?;
    job.band = 1;
    is_told(&rt, rt.alloc(), &job, 1000, "1/5 2/5 3/5 4/5 5/5 ")
}

// Fails unless a picture is refused, and its watcher is told of nothing.
fn is_not_told(rt: &impl Abort, alloc: Global, picture: Picture, plot: &[u8]) -> Result<(), Fail> {
    let mut diary = Diary {
        told: String::new(alloc),
    };
    let (_, answer) = run_task(
        alloc,
        Setup {
            reading: Reading::Core,
            carousel: &Carousel::empty(),
            choice: PageChoice::GIVEN,
            turn: Turn::None,
            counts: false,
        },
        &Task::Picture(picture),
        naming_of(""),
        &mut OverRead::new(plot),
        OverWrite::new(Writer::new(alloc)),
        &mut diary,
    );
    assert!(rt; answer.is_err());
    assert_eq!(rt; diary.told.as_str(), "");
    Ok(())
}

#[test]
fn watchers_of_refused_pictures(rt: HostRuntime) -> Result<(), Fail> {
    let alloc = rt.alloc();
    is_not_told(&rt, alloc, rows_of(&job_at(Form::Pcl, 127)?), CROSSING)?;
    let mut job = eight_by_eight(Form::Ppm)?;
    is_not_told(&rt, alloc, rows_of(&job), OFF_RANGE)?;
    job.first_row = 9;
    is_not_told(&rt, alloc, rows_of(&job), CROSSING)
}

#[test]
fn watchers_of_refused_pngs(rt: HostRuntime) -> Result<(), Fail> {
    let alloc = rt.alloc();
    let common = eight_by_eight(Form::Ppm)?;
    let job = PngJob {
        page: common.page,
        dots: common.dots,
        pens: common.pens,
        smoothing: Smoothing::NONE,
    };
    is_not_told(&rt, alloc, Picture::Png(job), OFF_RANGE)
}

// No picture is asked for at a resolution that PCL does not have.
#[test]
fn watchers_of_sheets_that_are_not_possible(rt: HostRuntime) -> Result<(), Fail> {
    let picture = rows_of(&job_at(Form::Pcl, 127)?);
    let setup = Setup {
        reading: Reading::Core,
        carousel: &Carousel::empty(),
        choice: PageChoice::GIVEN,
        turn: Turn::None,
        counts: false,
    };
    let asked = Request::new(setup, &picture, naming_of(""));
    assert_eq!(rt; asked.err(), Some(Fault::Resolution));
    is_not_told(&rt, rt.alloc(), picture, CROSSING)
}
