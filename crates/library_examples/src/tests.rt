//! The examples, run.
use crate::{Preview, bitmap, draft_picture, preview_picture, strokes_of_pen};
use plotraster::{Dots, Exact, Fault, Form, Gauge, Job, Page, PenSet, PlotFault};
use std::alloc::Global;
use std::test::Fail;

// A horizontal line of pen 1 in the middle of row 4, and one of pen 2 from it to the lower edge, on
// a page of 8 by 8 pixels.
const PLOT: &[u8] = b"SP1;PU0,28;PD64,28;SP2;PU28,28;PD28,0;";

const BITMAP: &[u8] = b"P4\n8 8\n\0\0\0\0\xff\x10\x10\x10";

const DRAFT: &[u8] = b"P4\n8 8\n\0\0\0\0\xaa\x10\0\x10";

fn eight_by_eight() -> Result<Job, Fail> {
    Ok(Job {
        page: Page::new(64, 64, 0, 0).ok().ok_or("a page")?,
        dots: Dots::new(127).ok_or("a resolution")?,
        pens: PenSet::all(),
        band: 8,
        first_row: 0,
        form: Form::Pbm,
    })
}

// What `bitmap` answers. The contracts of this function and of the next three promise nothing, so no
// proof of a test reads what the examples are proved to do: a test looks at the answers.
fn bitmap_of(alloc: Global, job: &Job, pens: PenSet, plot: &[u8]) -> Result<Vec<u8>, Fault> {
    bitmap(alloc, job.page, job.dots, pens, plot)
}

// What `strokes_of_pen` answers.
fn count_of(alloc: Global, page: &Page, plot: &[u8], pen: u8) -> Result<usize, Fault> {
    strokes_of_pen(alloc, page, plot, pen)
}

// A preview, or a draft, and how many distance tests were made for it.
#[derive(Drop)]
struct Made {
    is_whole: bool,
    bytes: Vec<u8>,
    tests: u64,
}

fn taken_apart(preview: Preview, tests: u64) -> Made {
    match preview {
        Preview::Whole(bytes) => Made {
            is_whole: true,
            bytes,
            tests,
        },
        Preview::Beginning(bytes) => Made {
            is_whole: false,
            bytes,
            tests,
        },
    }
}

// What `preview_picture` answers with the exact gauge.
fn preview_of(alloc: Global, job: &Job, room: usize) -> Result<Made, Fault> {
    let mut gauge = Exact::new();
    let preview = preview_picture(alloc, job, &mut gauge, PLOT, room)?;
    Ok(taken_apart(preview, gauge.tests()))
}

// What `draft_picture` answers.
fn draft_of(alloc: Global, job: &Job, room: usize) -> Result<Made, Fault> {
    let (preview, tests) = draft_picture(alloc, job, PLOT, room)?;
    Ok(taken_apart(preview, tests))
}

#[test]
fn a_bitmap(rt: HostRuntime) -> Result<(), Fail> {
    let job = eight_by_eight()?;
    let bytes = bitmap_of(rt.alloc(), &job, job.pens, PLOT)?;
    assert!(rt; bytes.as_slice() == BITMAP);
    let bytes = bitmap_of(rt.alloc(), &job, PenSet::none().with(1), PLOT)?;
    assert!(rt; bytes.as_slice() == b"P4\n8 8\n\0\0\0\0\xff\0\0\0".as_slice());
    Ok(())
}

#[test]
fn a_plot_without_a_bitmap(rt: HostRuntime) -> Result<(), Fail> {
    let job = eight_by_eight()?;
    let answer = bitmap_of(rt.alloc(), &job, job.pens, b"SP1;PD70000,0;");
    let is_refused = matches!(answer, Err(Fault::Plot(PlotFault::OffRange { at: 4 })));
    assert!(rt; is_refused);
    Ok(())
}

#[test]
fn previews(rt: HostRuntime) -> Result<(), Fail> {
    let job = eight_by_eight()?;
    for room in 0..=BITMAP.len() + 1 {
        let preview = preview_of(rt.alloc(), &job, room)?;
        assert!(rt; preview.is_whole == (room >= BITMAP.len()), "{room}");
        let wanted = BITMAP.get(..room).unwrap_or(BITMAP);
        assert!(rt; preview.bytes.as_slice() == wanted, "{room}");
        assert!(rt; preview.tests <= 64);
    }
    Ok(())
}

#[test]
fn a_draft(rt: HostRuntime) -> Result<(), Fail> {
    let draft = draft_of(rt.alloc(), &eight_by_eight()?, 100)?;
    assert!(rt; 0 < draft.tests);
    assert!(rt; draft.is_whole);
    assert!(rt; draft.bytes.as_slice() == DRAFT);
    Ok(())
}

#[test]
fn counted_strokes(rt: HostRuntime) -> Result<(), Fail> {
    let page = eight_by_eight()?.page;
    let mut counts = String::new(rt.alloc());
    for pen in 0..4 {
        let count = count_of(
            rt.alloc(),
            &page,
            b"PU0,0;PD8,8,16,0;SP2;PD0,0;SP0;PD9,9;",
            pen,
        )?;
        write!(counts, "{pen}: {count}, ")?;
    }
    assert_eq!(rt; counts.as_str(), "0: 0, 1: 2, 2: 1, 3: 0, ");
    let answer = count_of(rt.alloc(), &page, b"PD70000,0;", 1);
    let is_refused = matches!(answer, Err(Fault::Plot(PlotFault::OffRange { at: 0 })));
    assert!(rt; is_refused);
    Ok(())
}
