//! Smoothed pictures. The sums of their bytes are those of pictures whose pixels were compared with the means of pixels of the
//! finer ones.
use carousel::Carousel;
use conversion::{Fault, Naming, Request, Setup, Turn, Unwatched, draw, write};
use crc32::crc_of;
use devices::{OverRead, OverWrite};
use picture_job::{Job, PageChoice, Picture, PngJob, Reading, RowChoice, Smoothing};
use picture_out::Form;
use plot_page::{Dots, Page, PenSet};
use std::alloc::Global;
use std::test::Fail;
use stroke_raster::Exact;

// Upright and slanted lines of four pens, of which two upright ones are a few finer pixels apart.
const LINES: &[u8] =
    b"SP2;PW.1,2;PU2,0;PD2,64;PU20,0;PD20,64;SP3;PU40,0;PD40,64;SP5;PU0,50;PD64,10;SP4;PU60,0;PD60,64;SP2;PU0,30;PD64,34;";

// What a document would be named; none is written here.
const UNNAMED: Naming<'_> = Naming {
    version: "",
    title: "",
};

// The CRC-32 of the lines' pixmap, at so many dots per inch, smoothed so many times.
fn pixmap_sum(alloc: Global, per_inch: u32, times: u32) -> Result<u32, Fail> {
    let job = Job {
        page: Page::new(64, 64, 0, 0).ok().ok_or("a page")?,
        dots: Dots::new(per_inch).ok_or("a resolution")?,
        pens: PenSet::all(),
        band: 3,
        first_row: 0,
        form: Form::Ppm,
    };
    let smoothing = Smoothing::new(times).ok_or("a smoothing")?;
    let rows = RowChoice::all(smoothing);
    let picture = Picture::Rows { job, rows };
    Ok(sum_of(alloc, picture).ok().ok_or("a picture")?)
}

// The contract of this function promises nothing, so no proof of a test reads what conversions are proved to do: a test looks
// at the sums.
fn sum_of(alloc: Global, picture: Picture) -> Result<u32, Fault> {
    let setup = Setup {
        reading: Reading::Core,
        carousel: &Carousel::empty(),
        choice: PageChoice::GIVEN,
        turn: Turn::None,
        counts: false,
    };
    let request = Request::new(setup, &picture, UNNAMED)?;
    let drawing = draw(alloc, &request, &mut OverRead::new(LINES))?;
    let (sink, answer) = write(
        alloc,
        &request,
        &drawing,
        0,
        &mut Exact::new(),
        OverWrite::new(Vec::new(alloc)),
        &mut Unwatched,
    );
    answer?;
    let bytes = sink.into_inner();
    Ok(crc_of(&bytes))
}

// Of 24 finer columns, with cells that are marked among others that are not.
#[test]
fn marked_cells_are_found(rt: HostRuntime) -> Result<(), Fail> {
    assert_eq!(rt; pixmap_sum(rt.alloc(), 190, 2)?, 0xfdb9bcde);
    Ok(())
}

// Pixels of 64 finer ones, some with a single one that is not white.
#[test]
fn nearly_white_pixels(rt: HostRuntime) -> Result<(), Fail> {
    assert_eq!(rt; pixmap_sum(rt.alloc(), 120, 8)?, 0x5c790909);
    Ok(())
}

// A palette of the shades of four colours, which come again in a row after others.
#[test]
fn shades_of_colours(rt: HostRuntime) -> Result<(), Fail> {
    let job = PngJob {
        page: Page::new(64, 64, 0, 0).ok().ok_or("a page")?,
        dots: Dots::new(190).ok_or("a resolution")?,
        pens: PenSet::all(),
        smoothing: Smoothing::new(2).ok_or("a smoothing")?,
    };
    let sum = sum_of(rt.alloc(), Picture::Png(job))
        .ok()
        .ok_or("a picture")?;
    assert_eq!(rt; sum, 0x0b7f85b5);
    Ok(())
}
