//! Plots that are drawn on the page around their drawing.
use crate::cases::text_of;
use crate::pages::{eight_by_eight, placed_on};
use plotraster::{
    Carousel, Encoding, Form, Job, OverRead, OverWrite, Page, PageChoice, PenSet, Picture, Reading,
    RowChoice, Setup, Smoothing, Task, Turn, Unwatched, naming_of, report_on, run_task,
};
use std::alloc::Global;
use std::test::Fail;

// A plot on a line, and on the next what becomes of it: the placement, the strokes, how many of them lie off the page and how
// many others reach over its edge, and the page of the report. The margin is 1 mm.
const CASES: &str = "\
SP1;PW1;PU0,0;PD100,200;
Fitted 1 0 0 page 220 320 60 60

SP1;PW1;PU-100,0;PD100,-200;
Fitted 1 0 0 page 320 320 160 260

SP1;PW0;PU1000,1000;PD1010.5,1000;
Fitted 1 0 0 page 91 80 -960 -960

SP1;PW0;PD;
Fitted 1 0 0 page 80 80 40 40

SP1;PW0.001;PD;
Fitted 1 0 0 page 82 82 41 41

SP1;PW0;PU-5000,0;PD-5000,5;
Fitted 1 0 0 page 80 85 5040 40

SP1;PW1;PU0,0;PD100,200;SP2;PW2;PU500,0;PD500,1;
Fitted 2 0 0 page 640 340 60 80

PU100,200;
Blank 0 0 0 page 64 64 0 0

SP1;PU-60000,0;PD60000,0;
TooLarge 1 0 1 page 64 64 0 0

SP1;PU65000,0;PD65500,0;
Fitted 1 0 0 page 594 94 -64953 47

SP1;SC0,9,0,9;PD5,5;
Fitted 1 0 0 page 130 130 47 47

SP1;RO90;PD5,5;
Fitted 1 0 0 page 153 99 47 47

SP1;RO90;PU0,65000;PD0,65100;
Fitted 1 0 0 page 194 94 65083 47

SP1;PW0;IW0,0,30,30;PU10,10;PD500,10;
Fitted 1 0 0 page 100 80 30 30

SP1;PW0;IW0,0,30,30;PU40,10;PD500,10;
Blank 1 0 0 page 64 64 0 0

SP1;PW0;IW0,0,30,30;PU10,10;PD65530,10;
Fitted 1 0 0 page 100 80 30 30
";

// The page around the drawing, with a margin in millimetres.
pub(crate) fn fitted(margin: u32) -> PageChoice {
    PageChoice {
        asked: false,
        margin: Some(margin),
        pixels: None,
    }
}

// What `report_on` says of a plot on a page of 64 units a side.
fn placed(alloc: Global, choice: PageChoice, plot: &str) -> Result<String, Fail> {
    placed_as(alloc, Reading::Core, choice, plot)
}

// The same of a plot that is read so.
fn placed_as(
    alloc: Global,
    reading: Reading,
    choice: PageChoice,
    plot: &str,
) -> Result<String, Fail> {
    let page = eight_by_eight(Form::Pbm)?.page;
    placed_on(alloc, &page, reading, choice, plot)
}

#[test]
fn pages_around_drawings(rt: HostRuntime) -> Result<(), Fail> {
    let mut found: usize = 0;
    for case in CASES.trim_end().split("\n\n") {
        let (plot, wanted) = case.split_once("\n").ok_or("a case with no answer")?;
        let answer = placed(rt.alloc(), fitted(1), plot)?;
        assert_eq!(rt; answer.as_str(), wanted, "{plot}");
        found = found.saturating_add(1);
    }
    assert_eq!(rt; found, 16);
    Ok(())
}

const MARGINS: [(u32, &str); 4] = [
    (0, "Fitted 1 0 0 page 140 240 20 20"),
    (1, "Fitted 1 0 0 page 220 320 60 60"),
    (1000, "TooLarge 1 0 1 page 64 64 0 0"),
    (4_294_967_295, "TooLarge 1 0 1 page 64 64 0 0"),
];

#[test]
fn margins_around_drawings(rt: HostRuntime) -> Result<(), Fail> {
    let plot = "SP1;PW1;PU0,0;PD100,200;";
    for (margin, wanted) in MARGINS {
        let answer = placed(rt.alloc(), fitted(margin), plot)?;
        assert_eq!(rt; answer.as_str(), wanted);
    }
    let answer = placed(rt.alloc(), PageChoice::GIVEN, plot)?;
    assert_eq!(rt; answer.as_str(), "Given 1 0 1 page 64 64 0 0");
    Ok(())
}

// Plots on a page of 64 units a side, how many of their lines lie off it, and how many others reach over its edge. Lines are 14
// units wide.
const OFF_THE_PAGE: [(&str, &str); 14] = [
    ("SP1;PU-7,0;PD-7,60;", "Given 1 0 1 page 64 64 0 0"),
    ("SP1;PU-8,0;PD-8,60;", "Given 1 1 0 page 64 64 0 0"),
    ("SP1;PU0,-8;PD60,-8;", "Given 1 1 0 page 64 64 0 0"),
    ("SP1;PU71,0;PD71,60;", "Given 1 0 1 page 64 64 0 0"),
    ("SP1;PU72,0;PD72,60;", "Given 1 1 0 page 64 64 0 0"),
    ("SP1;PU0,72;PD60,72;", "Given 1 1 0 page 64 64 0 0"),
    ("SP1;PU-20,30;PD90,30;", "Given 1 0 1 page 64 64 0 0"),
    ("SP1;PU0,0;PD64,64;", "Given 1 0 0 page 64 64 0 0"),
    ("SP1;PU0,0;PD65,64;", "Given 1 0 1 page 64 64 0 0"),
    ("SP1;PU65,0;PD0,64;", "Given 1 0 1 page 64 64 0 0"),
    ("SP1;PU30,-1;PD30,30;", "Given 1 0 1 page 64 64 0 0"),
    ("SP1;PU30,30;PD30,65;", "Given 1 0 1 page 64 64 0 0"),
    (
        "SP1;IW0,0,50,50;PU0,0;PD99,0;",
        "Given 1 0 0 page 64 64 0 0",
    ),
    (
        "SP1;IW0,0,99,99;PU0,0;PD99,0;",
        "Given 1 0 1 page 64 64 0 0",
    ),
];

#[test]
fn lines_off_the_page(rt: HostRuntime) -> Result<(), Fail> {
    for (plot, wanted) in OFF_THE_PAGE {
        let answer = placed(rt.alloc(), PageChoice::GIVEN, plot)?;
        assert_eq!(rt; answer.as_str(), wanted, "{plot}");
    }
    Ok(())
}

// The lines of a picture in marks that these pens draw, on the page around them, and what is said of it.
fn drawn(alloc: Global, pens: PenSet, plot: &[u8]) -> Result<String, Fail> {
    let job = Job {
        pens,
        ..eight_by_eight(Form::Marks)?
    };
    let choice = fitted(0);
    let (sink, answer) = run_task(
        alloc,
        Setup {
            reading: Reading::Core,
            carousel: &Carousel::empty(),
            choice,
            turn: Turn::None,
            counts: true,
        },
        &Task::Picture(Picture::Rows {
            job,
            rows: RowChoice::all(Smoothing::NONE),
        }),
        naming_of(""),
        &mut OverRead::new(plot),
        OverWrite::new(Vec::new(alloc)),
        &mut Unwatched,
    );
    let outcome = answer?;
    let written = sink.into_inner();
    let marks = text_of(written.as_slice())?;
    let (rows, placement) = (outcome.done.rows, outcome.placement);
    let census = outcome.census.ok_or("no census")?;
    let (strokes, off_page) = (census.strokes, census.off_page);
    Ok(format!(in alloc; "{rows} rows, {placement:?}, {strokes} and {off_page}\n{marks}")?)
}

// Dots of two pens, which are pixels of 8 units: a page that is not long enough for one is 64 units long.
const DOTS: &[u8] = b"SP1;PW0.1;PU4,4;PD;PU;SP2;PU124,4;PD;";

#[test]
fn the_selected_pens_choose_the_page(rt: HostRuntime) -> Result<(), Fail> {
    let first = drawn(rt.alloc(), PenSet::none().with(1), DOTS)?;
    assert_eq!(rt; first.as_str(), "8 rows, Fitted, 1 and 0\n7 0 1 000000\n");
    let second = drawn(rt.alloc(), PenSet::none().with(2), DOTS)?;
    assert_eq!(rt; second.as_str(), "8 rows, Fitted, 1 and 0\n7 0 2 ff0000\n");
    let neither = drawn(rt.alloc(), PenSet::none().with(3), DOTS)?;
    assert_eq!(rt; neither.as_str(), "8 rows, Blank, 0 and 0\n");
    Ok(())
}

// A line in a window that shows its right half, and one that its window hides. The page around them begins at (32, 24).
const WINDOWS: &[u8] = b"SP1;PW0.2;IW32,0,64,64;PU16,28;PD48,28;IW0,0,15,10;PU16,60;PD60,60;";

#[test]
fn windows_move_along(rt: HostRuntime) -> Result<(), Fail> {
    let marks = drawn(rt.alloc(), PenSet::all(), WINDOWS)?;
    let wanted = "8 rows, Fitted, 2 and 0\n7 0 1 000000\n7 1 1 000000\n7 2 1 000000\n";
    assert_eq!(rt; marks.as_str(), wanted);
    Ok(())
}

// A page without a margin around plots of the profile full, and what is said of them on the page of 64 units.
const WITH_AREAS: &str = "\
IW10,10,30,40;PU0,0;RA100,100;
Fitted 4 0 0 page 64 64 -10 -10
Given 4 0 0 page 64 64 0 0

IW10,10,30,40;PU40,0;RA100,100;
Blank 4 0 0 page 64 64 0 0
Given 4 0 0 page 64 64 0 0

PU-10,-10;RA100,100;
Fitted 4 0 0 page 110 110 10 10
Given 4 0 4 page 64 64 0 0

PU70,0;RA200,100;
Fitted 4 0 0 page 130 100 -70 0
Given 4 4 0 page 64 64 0 0

PU-300000,0;RA300000,64;
TooLarge 4 0 4 page 64 64 0 0
Given 4 0 4 page 64 64 0 0

SP1;PW0;IW5,0,30,30;PU30,10;PD-8388607,10;
TooLarge 1 0 0 page 64 64 0 0
Given 1 0 0 page 64 64 0 0

PU70,0;RA200,100;PG;PU0,0;RA100,200;
Fitted 4 0 0 page 130 100 -70 0
Given 4 4 0 page 64 64 0 0
";

#[test]
fn pages_around_areas(rt: HostRuntime) -> Result<(), Fail> {
    let mut found: usize = 0;
    let reading = Reading::Full {
        sheet: 1,
        encoding: Encoding::ByPlot,
    };
    for case in WITH_AREAS.trim_end().split("\n\n") {
        let (plot, wanted) = case.split_once("\n").ok_or("a case with no answer")?;
        let around = placed_as(rt.alloc(), reading, fitted(0), plot)?;
        let given = placed_as(rt.alloc(), reading, PageChoice::GIVEN, plot)?;
        let both = format!(in rt.alloc(); "{around}\n{given}")?;
        assert_eq!(rt; both.as_str(), wanted, "{plot}");
        found = found.saturating_add(1);
    }
    assert_eq!(rt; found, 7);
    Ok(())
}

// Whether all of a plot is off the page that is chosen, and how many of its strokes are, if they are counted.
fn off_the_page(alloc: Global, choice: PageChoice, counts: bool) -> Result<String, Fail> {
    let setup = Setup {
        reading: Reading::Core,
        carousel: &Carousel::empty(),
        choice,
        turn: Turn::None,
        counts,
    };
    let page = Page::new(64, 64, 0, 0)?;
    let mut source = OverRead::new(b"SP1;PW0;PU170,0;PD180,0;PU70,100;PD70,110;".as_slice());
    let mut sink = OverWrite::new(Vec::new(alloc));
    let outcome = report_on(alloc, setup, &page, &mut source, &mut sink)?;
    let is_off = outcome.is_off_page;
    Ok(match outcome.census {
        Some(census) => {
            let (strokes, off_page) = (census.strokes, census.off_page);
            format!(in alloc; "{is_off}: {off_page} of {strokes}")?
        }
        None => format!(in alloc; "{is_off}")?,
    })
}

#[test]
fn what_is_off_the_page(rt: HostRuntime) -> Result<(), Fail> {
    let given = off_the_page(rt.alloc(), PageChoice::GIVEN, true)?;
    assert_eq!(rt; given.as_str(), "true: 2 of 2");
    let uncounted = off_the_page(rt.alloc(), PageChoice::GIVEN, false)?;
    assert_eq!(rt; uncounted.as_str(), "true");
    let around = off_the_page(rt.alloc(), fitted(0), true)?;
    assert_eq!(rt; around.as_str(), "false: 0 of 2");
    Ok(())
}
