//! Plots that are drawn on the page that they ask for.
use crate::cases::text_of;
use crate::pages::placed_on;
use crate::placements::fitted;
use plotraster::{
    Carousel, Dots, Encoding, Fault, Form, Job, OverRead, OverWrite, Page, PageChoice, PenSet,
    Picture, PlotFault, Reading, RowChoice, Setup, Smoothing, Task, Turn, Unwatched, naming_of,
    report_on, run_task,
};
use std::alloc::Global;
use std::test::Fail;

// Plots on a line each, and on the next what becomes of them in both profiles: the placement, the strokes, how many of
// them lie off the page and how many others reach over its edge, and the page of the report. The page that is given is 800 by 600 units, its corner at (-10,-20).
const CASES: &str = "\
PS400,300;SP1;PD100,200;
IN;PS400,300;SP1;PD100,200;
SP1;PD100,200;PS400,300;
SP1;PD100,200;ps 400\t,,300
PS400,300,50;SP1;PD100,200;
PS400,300;PS100,100;SP1;PD100,200;
PS;PS63,64;PS64,63;PS-400,300;PS400,300:;PS400.1,299.9;SP1;PD100,200;
PS400,+300.SP1PD100,200
Asked 1 0 0 page 400 300 10 20

PS64.4,64.5;SP1;PD;
Asked 1 0 0 page 64 65 10 20

PS64.499999,65536.499999;SP1;PD;
Asked 1 0 0 page 64 65536 10 20

PS400;SP1;PU0,590;PD9,590;
PS400,;SP1;PU0,590;PD9,590;
PS400,524288.5;PS400;SP1;PU0,590;PD9,590;
Asked 1 1 0 page 400 600 10 20

SP1;PD100,200;
PS;SP1;PD100,200;
PS63;PS0;PS-400;PS524288.5;PS400,8388608;PS400,%;P S400,300;SP1;PD100,200;
PS\"400\";PS400\"PS400,300\";SP1;PD100,200;
SP0;LBPS400,300;\x03SP1;PU0,0;PD100,200;
Unasked 1 0 0 page 800 600 10 20
";

const ASKED: PageChoice = PageChoice {
    asked: true,
    margin: None,
    pixels: None,
};

fn given() -> Result<Page, Fail> {
    Ok(Page::new(800, 600, 10, 20)?)
}

// What `report_on` says of a plot, on the page that it asks for.
fn placed(alloc: Global, reading: Reading, plot: &str) -> Result<String, Fail> {
    placed_on(alloc, &given()?, reading, ASKED, plot)
}

#[test]
fn pages_that_plots_ask_for(rt: HostRuntime) -> Result<(), Fail> {
    let mut found: usize = 0;
    for case in CASES.trim_end().split("\n\n") {
        let (plots, wanted) = case.rsplit_once("\n").ok_or("a case with no answer")?;
        for plot in plots.lines() {
            for reading in [
                Reading::Core,
                Reading::Full {
                    sheet: 0,
                    encoding: Encoding::ByPlot,
                },
            ] {
                let answer = placed(rt.alloc(), reading, plot)?;
                assert_eq!(rt; answer.as_str(), wanted, "{reading:?}: {plot}");
                found = found.saturating_add(1);
            }
        }
    }
    assert_eq!(rt; found, 36);
    Ok(())
}

// Only the profile full has pages that are longer than 65,536 units.
#[test]
fn rolls_that_plots_ask_for(rt: HostRuntime) -> Result<(), Fail> {
    let full = Reading::Full {
        sheet: 0,
        encoding: Encoding::ByPlot,
    };
    let long = placed(rt.alloc(), full, "PS524288,65537;")?;
    assert_eq!(rt; long.as_str(), "Asked 0 0 0 page 524288 65537 10 20");
    let longer = placed(rt.alloc(), full, "PS524289,64;PS64,524288;")?;
    assert_eq!(rt; longer.as_str(), "Asked 0 0 0 page 64 524288 10 20");
    let core = placed(rt.alloc(), Reading::Core, "PS65537,64;PS64,65536;")?;
    assert_eq!(rt; core.as_str(), "Asked 0 0 0 page 64 65536 10 20");
    Ok(())
}

// A page of any size is fitted around a drawing in the profile full.
#[test]
fn rolls_around_drawings(rt: HostRuntime) -> Result<(), Fail> {
    let full = Reading::Full {
        sheet: 0,
        encoding: Encoding::ByPlot,
    };
    let long = "SP1;PW0;PU-200000,0;PD200000,64;";
    let answer = placed_on(rt.alloc(), &given()?, full, fitted(0), long)?;
    assert_eq!(rt; answer.as_str(), "Fitted 1 0 0 page 400000 64 200000 0");
    let plot = "SP1;PW0;PU-65000,0;PD65000,64;";
    let answer = placed_on(rt.alloc(), &given()?, Reading::Core, fitted(0), plot)?;
    assert_eq!(rt; answer.as_str(), "TooLarge 1 0 1 page 800 600 10 20");
    Ok(())
}

// A comment of the profile full, which the core does not know.
const COMMENTED: &str = "CO PS400,300;PS500,200;";

#[test]
fn profiles_cut_otherwise(rt: HostRuntime) -> Result<(), Fail> {
    let core = placed(rt.alloc(), Reading::Core, COMMENTED)?;
    assert_eq!(rt; core.as_str(), "Asked 0 0 0 page 400 300 10 20");
    let full = placed(
        rt.alloc(),
        Reading::Full {
            sheet: 1,
            encoding: Encoding::ByPlot,
        },
        COMMENTED,
    )?;
    assert_eq!(rt; full.as_str(), "Asked 0 0 0 page 500 200 10 20");
    Ok(())
}

// The marks of a plot on a page of 8 by 8 pixels, or on the page that it asks for, and what is said of it.
fn drawn(alloc: Global, choice: PageChoice, plot: &[u8]) -> Result<String, Fail> {
    let job = Job {
        page: Page::new(64, 64, 0, 0)?,
        dots: Dots::new(127).ok_or("a resolution")?,
        pens: PenSet::all(),
        band: 64,
        first_row: 0,
        form: Form::Marks,
    };
    let (sink, answer) = run_task(
        alloc,
        Setup {
            reading: Reading::Core,
            carousel: &Carousel::empty(),
            choice,
            turn: Turn::None,
            counts: false,
        },
        &Task::Picture(Picture::Rows {
            job,
            rows: RowChoice::all(Smoothing::NONE),
        }),
        naming_of(""),
        &mut OverRead::new(plot),
        OverWrite::new(Vec::new(alloc)),
        &mut Unwatched,
    );
    let outcome = answer?;
    let written = sink.into_inner();
    let marks = text_of(written.as_slice())?;
    let (rows, placement) = (outcome.done.rows, outcome.placement);
    Ok(format!(in alloc; "{rows} rows, {placement:?}\n{marks}")?)
}

#[test]
fn pictures_of_the_page_asked_for(rt: HostRuntime) -> Result<(), Fail> {
    let plot = b"PS72,80;SP1;PW0.1;PU68,76;PD;";
    let given = drawn(rt.alloc(), PageChoice::GIVEN, plot)?;
    assert_eq!(rt; given.as_str(), "8 rows, Given\n");
    let asked = drawn(rt.alloc(), ASKED, plot)?;
    assert_eq!(rt; asked.as_str(), "10 rows, Asked\n0 8 1 000000\n");
    Ok(())
}

// A plot that fills the page that it asks for, and one that asks for none.
#[test]
fn pages_around_drawings_on_pages_asked_for(rt: HostRuntime) -> Result<(), Fail> {
    let plot = "PS800,600;IP;SC0,1,0,1;SP1;PW0;PU0,0;PD1,1;";
    let choice = PageChoice {
        asked: true,
        margin: Some(0),
        pixels: None,
    };
    let answer = placed_on(rt.alloc(), &given()?, Reading::Core, choice, plot)?;
    assert_eq!(rt; answer.as_str(), "Fitted 1 0 0 page 800 600 10 20");
    let answer = placed_on(rt.alloc(), &given()?, Reading::Core, fitted(0), plot)?;
    assert_eq!(rt; answer.as_str(), "Fitted 1 0 0 page 800 600 10 20");
    let answer = placed_on(
        rt.alloc(),
        &given()?,
        Reading::Core,
        choice,
        "SP1;PW0;PU0,0;PD8,90;",
    )?;
    assert_eq!(rt; answer.as_str(), "Fitted 1 0 0 page 64 90 0 0");
    Ok(())
}

// Plots that are turned go out of range on a page that is not wide enough: on the page that the first asks for, and on the
// page that is given.
const REFUSED: &[u8] = b"PS64,64;RO90;PD0,66000;";

const ACCEPTED: &[u8] = b"PS800,64;RO90;PD0,66000;";

// Why a report on the page that a plot asks for is refused, on a page of 64 units a side or of this width.
fn refusal(
    alloc: Global,
    width: u32,
    choice: PageChoice,
    plot: &[u8],
) -> Result<Option<Fault>, Fail> {
    let page = Page::new(width, 64, 0, 0)?;
    let mut sink = OverWrite::new(Vec::new(alloc));
    let mut source = OverRead::new(plot);
    Ok(report_on(
        alloc,
        Setup {
            reading: Reading::Core,
            carousel: &Carousel::empty(),
            choice,
            turn: Turn::None,
            counts: false,
        },
        &page,
        &mut source,
        &mut sink,
    )
    .err())
}

#[test]
fn refused_for_the_page_asked_for(rt: HostRuntime) -> Result<(), Fail> {
    let fault = Some(Fault::Plot(PlotFault::OffRange { at: 13 }));
    let other = Some(Fault::Plot(PlotFault::OffRange { at: 14 }));
    let (asked, given) = (ASKED, PageChoice::GIVEN);
    assert_eq!(rt; refusal(rt.alloc(), 800, asked, REFUSED)?, fault);
    assert_eq!(rt; refusal(rt.alloc(), 800, given, REFUSED)?, None);
    assert_eq!(rt; refusal(rt.alloc(), 64, asked, ACCEPTED)?, None);
    assert_eq!(rt; refusal(rt.alloc(), 64, given, ACCEPTED)?, other);
    Ok(())
}
