//! How a run ends, for its output.
use delivery::Ending;
use plotraster::{
    Dots, Fault, Form, Job, Page, PenSet, Picture, PngJob, RowChoice, Smoothing, Task, ending_of,
    fault_of_sync,
};
use std::test::Fail;

#[test]
fn endings_after_faults(rt: HostRuntime) -> Result<(), Fail> {
    let write = Fault::Write {
        row: 5,
        whole: 131,
        bytes: 141,
    };
    assert_eq!(rt; ending_of(&Err(write)), Ending::Kept(3));
    assert_eq!(rt; ending_of(&Err(Fault::Unfinished)), Ending::Lost(3));
    assert_eq!(rt; ending_of(&Err(Fault::Memory)), Ending::Lost(4));
    assert_eq!(rt; ending_of(&Err(Fault::TooLong)), Ending::Lost(1));
    assert_eq!(rt; ending_of(&Err(Fault::Letters)), Ending::Lost(2));
    assert_eq!(rt; ending_of(&Err(Fault::Pixels)), Ending::Lost(2));
    Ok(())
}

// The jobs of the line `--from=7` on the smallest page.
fn tasks() -> Option<(Task, Task, Task)> {
    let page = Page::new(64, 64, 0, 0).ok()?;
    let dots = Dots::new(100)?;
    let (pens, smoothing) = (PenSet::all(), Smoothing::NONE);
    let job = Job {
        page,
        dots,
        pens,
        band: 64,
        first_row: 7,
        form: Form::Pbm,
    };
    let png = PngJob {
        page,
        dots,
        pens,
        smoothing,
    };
    let rows = RowChoice::all(smoothing);
    let rows = Task::Picture(Picture::Rows { job, rows });
    Some((rows, Task::Picture(Picture::Png(png)), Task::Report(page)))
}

#[test]
fn unstored_outputs(rt: HostRuntime) -> Result<(), Fail> {
    let (rows, png, report) = tasks().ok_or("a small page")?;
    let from = |row: u32| Fault::Write {
        row,
        whole: 0,
        bytes: 0,
    };
    assert_eq!(rt; fault_of_sync(&rows), from(7));
    assert_eq!(rt; fault_of_sync(&png), Fault::Unfinished);
    assert_eq!(rt; fault_of_sync(&report), from(0));
    Ok(())
}
