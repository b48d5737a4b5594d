//! Plots that are drawn once, and of which each sheet is a picture.
use crate::pages::eight_by_eight;
use crate::runs::drawn_as;
use plotraster::{
    Carousel, Dots, Drawing, Encoding, Fault, Form, Job, OverRead, OverWrite, PageChoice, Picture,
    PngJob, Reading, Request, RowChoice, Setup, Smoothing, Turn, Unwatched, draw_sheets, naming_of,
    write_sheet,
};
use std::alloc::Global;
use std::test::Fail;

// Three sheets: a line in row 4, one in column 3, and one in row 1. The third one ends with the plot.
const SHEETS: &[u8] = b"SP1;PU0,28;PD64,28;PG;PU28,0;PD28,64;PG;PU0,52;PD64,52;";

pub const ALL: Reading = Reading::Full {
    sheet: 0,
    encoding: Encoding::ByPlot,
};

pub fn rows_of(job: Job) -> Picture {
    Picture::Rows {
        job,
        rows: RowChoice::all(Smoothing::NONE),
    }
}

// What a plot draws, for pictures of its sheets.
pub fn drawing(
    alloc: Global,
    reading: Reading,
    choice: PageChoice,
    picture: &Picture,
    plot: &[u8],
) -> Result<Drawing, Fault> {
    let mut source = OverRead::new(plot);
    draw_sheets(
        alloc,
        &Request::new(
            Setup {
                reading,
                carousel: &Carousel::empty(),
                choice,
                turn: Turn::None,
                counts: false,
            },
            picture,
            naming_of(""),
        )?,
        &mut source,
    )
}

// The picture of a sheet of a drawing.
pub fn picture_of(
    alloc: Global,
    drawing: &Drawing,
    sheet: u32,
    choice: PageChoice,
    picture: &Picture,
) -> Result<Vec<u8>, Fail> {
    let sink = OverWrite::new(Vec::new(alloc));
    let naming = naming_of("");
    let (sink, outcome) = write_sheet(
        alloc,
        &Request::new(
            Setup {
                reading: ALL,
                carousel: &Carousel::empty(),
                choice,
                turn: Turn::None,
                counts: false,
            },
            picture,
            naming,
        )?,
        drawing,
        sheet,
        sink,
        &mut Unwatched,
    );
    outcome?;
    Ok(sink.into_inner())
}

#[test]
fn sheets_of_one_drawing(rt: HostRuntime) -> Result<(), Fail> {
    let alloc = rt.alloc();
    let job = eight_by_eight(Form::Pbm)?;
    let picture = rows_of(job);
    let choice = PageChoice::GIVEN;
    let drawing = drawing(alloc, ALL, choice, &picture, SHEETS)?;
    assert_eq!(rt; drawing.sheets(), 3);
    for sheet in 0..5 {
        let one = picture_of(alloc, &drawing, sheet, choice, &picture)?;
        let single = drawn_as(
            alloc,
            Reading::Full {
                sheet,
                encoding: Encoding::ByPlot,
            },
            &job,
            SHEETS,
        )?;
        assert!(rt; one.as_slice() == single.as_slice(), "{sheet}");
    }
    Ok(())
}

// One line on the first sheet, and two on the second.
const TWO_SHEETS: &[u8] = b"SP1;PU0,28;PD64,28;PG;PU28,0;PD28,64;PD60,36;";

// The second sheet of a plot that has two, drawn by itself, has no ends: all of it is its first sheet.
#[test]
fn a_drawing_of_one_sheet(rt: HostRuntime) -> Result<(), Fail> {
    let alloc = rt.alloc();
    let picture = rows_of(eight_by_eight(Form::Pbm)?);
    let choice = PageChoice::GIVEN;
    for reading in [
        Reading::Full {
            sheet: 2,
            encoding: Encoding::ByPlot,
        },
        Reading::Core,
    ] {
        let drawing = drawing(alloc, reading, choice, &picture, TWO_SHEETS)?;
        let all = picture_of(alloc, &drawing, 0, choice, &picture)?;
        let first = picture_of(alloc, &drawing, 1, choice, &picture)?;
        assert!(rt; all.as_slice() == first.as_slice(), "{reading:?}");
    }
    Ok(())
}

// The sizes of PNGs of a page of 800 by 600 units, whose longer side has at most so many pixels.
const SIZES: [(u32, u32, u32); 5] = [
    (1, 1, 1),
    (16, 16, 12),
    (100, 100, 75),
    (256, 256, 192),
    (4_294_967_295, 945, 709),
];

#[test]
fn sheets_of_so_many_pixels(rt: HostRuntime) -> Result<(), Fail> {
    let alloc = rt.alloc();
    let job = eight_by_eight(Form::Pbm)?;
    let picture = Picture::Png(PngJob {
        page: plotraster::Page::new(800, 600, 0, 0)?,
        dots: job.dots,
        pens: job.pens,
        smoothing: Smoothing::new(8).ok_or("a smoothing")?,
    });
    for (pixels, columns, rows) in SIZES {
        let choice = PageChoice {
            pixels: Some(pixels),
            ..PageChoice::GIVEN
        };
        let drawing = drawing(alloc, ALL, choice, &picture, SHEETS)?;
        let png = picture_of(alloc, &drawing, 1, choice, &picture)?;
        let size = png.as_slice().get(16..24).ok_or("a size")?;
        let [a, b] = [columns.to_be_bytes(), rows.to_be_bytes()];
        let wanted = [a[0], a[1], a[2], a[3], b[0], b[1], b[2], b[3]];
        assert!(rt; size == wanted.as_slice(), "{pixels}");
    }
    Ok(())
}

// PCL has resolutions of its own: nothing is read.
#[test]
fn no_pixels_are_chosen_in_pcl(rt: HostRuntime) -> Result<(), Fail> {
    let choice = PageChoice {
        pixels: Some(100),
        ..PageChoice::GIVEN
    };
    let picture = rows_of(eight_by_eight(Form::Pcl)?);
    let answer = drawing(rt.alloc(), ALL, choice, &picture, SHEETS);
    assert!(rt; matches!(answer, Err(Fault::Resolution)));
    Ok(())
}

// How much finer a picture of so many dots per inch is painted if its pixels are chosen, and if they are not.
#[test]
fn as_fine_as_may_be(rt: HostRuntime) -> Result<(), Fail> {
    let pixels = PageChoice {
        pixels: Some(100),
        ..PageChoice::GIVEN
    };
    let given = Smoothing::new(8).ok_or("a smoothing")?;
    for (resolution, times) in [(10, 8), (150, 8), (151, 7), (325, 3), (601, 1), (1200, 1)] {
        let dots = Dots::new(resolution).ok_or("a resolution")?;
        assert_eq!(rt; pixels.smoothing(dots, given).times(), times);
        assert_eq!(rt; PageChoice::GIVEN.smoothing(dots, given).times(), 8);
    }
    Ok(())
}
