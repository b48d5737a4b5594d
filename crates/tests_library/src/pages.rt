//! The page that most tests draw on, the plots that they draw, and where plots are placed.
use crate::cases::text_of;
use plotraster::{
    Carousel, Dots, Form, Job, OverRead, OverWrite, Page, PageChoice, PenSet, Reading, Setup, Turn,
    report_on,
};
use std::alloc::Global;
use std::test::Fail;

/// A horizontal line in the middle of row 4.
pub const LINE: &[u8] = b"SP1;PU0,28;PD64,28;";

/// A line of pen 1 in row 4, one of pen 2 in column 3 over it, and one of pen 1 in row 6 over both.
pub const CROSSING: &[u8] = b"SP1;PU0,28;PD64,28;SP2;PU28,0;PD28,64;SP1;PU0,12;PD64,12;";

/// A page of 8 by 8 pixels, each of 8 by 8 plotter units, whole, of all pens.
pub fn eight_by_eight(form: Form) -> Result<Job, Fail> {
    job_at(form, 127)
}

/// The same page at a resolution.
pub fn job_at(form: Form, per_inch: u32) -> Result<Job, Fail> {
    Ok(Job {
        page: Page::new(64, 64, 0, 0)?,
        dots: Dots::new(per_inch).ok_or("a resolution")?,
        pens: PenSet::all(),
        band: 64,
        first_row: 0,
        form,
    })
}

/// What `report_on` says of a plot: the placement, how many strokes there are, how many of them lie off the page, how many others
/// reach over its edge, and the page.
pub fn placed_on(
    alloc: Global,
    page: &Page,
    reading: Reading,
    choice: PageChoice,
    plot: &str,
) -> Result<String, Fail> {
    let mut sink = OverWrite::new(Vec::new(alloc));
    let mut source = OverRead::new(plot.as_bytes());
    let outcome = report_on(
        alloc,
        Setup {
            reading,
            carousel: &Carousel::empty(),
            choice,
            turn: Turn::None,
            counts: true,
        },
        page,
        &mut source,
        &mut sink,
    )?;
    let written = sink.into_inner();
    let line = text_of(written.as_slice())?
        .lines()
        .next()
        .ok_or("no line")?;
    let (placement, census) = (outcome.placement, outcome.census.ok_or("no census")?);
    let (strokes, off_page, cut) = (census.strokes, census.off_page, census.cut);
    Ok(format!(in alloc; "{placement:?} {strokes} {off_page} {cut} {line}")?)
}
