//! Pictures of drawings that are turned with their page of 64 by 128 plotter units, which has 8 by 16 pixels.
use carousel::Carousel;
use conversion::{Drawing, Fault, Naming, Request, Setup, Turn, Unwatched, draw, write};
use devices::{OverRead, OverWrite};
use picture_job::{Job, PageChoice, Picture, Reading, RowChoice, Smoothing};
use picture_out::Form;
use plot_page::{Dots, Page, PenSet};
use plotraster::Encoding;
use std::alloc::Global;
use std::test::Fail;
use stroke_raster::Exact;

// What a document would be named; none is written here.
const UNNAMED: Naming<'_> = Naming {
    version: "",
    title: "",
};

// A horizontal line of pen 1, and one of pen 2.
const LINE: &[u8] = b"SP1;PU0,28;PD64,28;SP2;PU0,100;PD64,100;";

// What is drawn of the line of pen 1 after each turn: the head, and the rows.
const TURNED: [(Turn, &[u8]); 4] = [
    (
        Turn::None,
        b"P4\n8 16\n\x00\x00\x00\x00\x00\x00\x00\x00\x00\x00\x00\x00\xff\x00\x00\x00",
    ),
    (
        Turn::Quarter,
        b"P4\n16 8\n\x00\x08\x00\x08\x00\x08\x00\x08\x00\x08\x00\x08\x00\x08\x00\x08",
    ),
    (
        Turn::Half,
        b"P4\n8 16\n\x00\x00\x00\xff\x00\x00\x00\x00\x00\x00\x00\x00\x00\x00\x00\x00",
    ),
    (
        Turn::ThreeQuarters,
        b"P4\n16 8\n\x10\x00\x10\x00\x10\x00\x10\x00\x10\x00\x10\x00\x10\x00\x10\x00",
    ),
];

fn picture() -> Result<Picture, Fail> {
    let job = Job {
        page: Page::new(64, 128, 0, 0)?,
        dots: Dots::new(127).ok_or("a resolution")?,
        pens: PenSet::none().with(1),
        band: 5,
        first_row: 0,
        form: Form::Pbm,
    };
    let rows = RowChoice::all(Smoothing::NONE);
    Ok(Picture::Rows { job, rows })
}

// What is drawn of a plot by this picture, and then turned.
fn drawn(
    alloc: Global,
    plot: &[u8],
    turn: Turn,
    picture: &Picture,
) -> Result<Result<Drawing, Fault>, Fail> {
    let carousel = Carousel::empty();
    let request = request(picture, &carousel, turn)?;
    Ok(draw(alloc, &request, &mut OverRead::new(plot)))
}

fn request<'a>(
    picture: &'a Picture,
    carousel: &'a Carousel,
    turn: Turn,
) -> Result<Request<'a>, Fail> {
    let setup = Setup {
        reading: Reading::Full {
            sheet: 1,
            encoding: Encoding::ByPlot,
        },
        carousel,
        choice: PageChoice::GIVEN,
        turn,
        counts: false,
    };
    Ok(Request::new(setup, picture, UNNAMED)?)
}

// The contract of this function promises nothing: a test looks at the bytes.
pub fn written(alloc: Global, plot: &[u8], turn: Turn) -> Result<Vec<u8>, Fail> {
    let picture = picture()?;
    let carousel = Carousel::empty();
    let request = request(&picture, &carousel, turn)?;
    let drawing = drawn(alloc, plot, turn, &picture)??;
    let (sink, answer) = write(
        alloc,
        &request,
        &drawing,
        0,
        &mut Exact::new(),
        OverWrite::new(Vec::new(alloc)),
        &mut Unwatched,
    );
    answer?;
    Ok(sink.into_inner())
}

#[test]
fn lines_turned_with_their_page(rt: HostRuntime) -> Result<(), Fail> {
    for (turn, wanted) in TURNED {
        let bytes = written(rt.alloc(), LINE, turn)?;
        assert_eq!(rt; bytes.as_slice(), wanted);
    }
    Ok(())
}

// Whether what a plot draws can be turned.
pub fn can_be_turned(alloc: Global, plot: &[u8], turn: Turn) -> Result<bool, Fail> {
    match drawn(alloc, plot, turn, &picture()?)? {
        Ok(_) => Ok(true),
        Err(Fault::Unturned) => Ok(false),
        Err(_) => Err(Fail::from("another fault")),
    }
}

// A line that would end too far right of the page, unless it is of another pen.
#[test]
fn lines_too_far_away(rt: HostRuntime) -> Result<(), Fail> {
    let far = b"SP1;PU0,0;PD0,-8388600;";
    assert!(rt; can_be_turned(rt.alloc(), far, Turn::None)?);
    assert!(rt; !can_be_turned(rt.alloc(), far, Turn::Quarter)?);
    assert!(rt; can_be_turned(rt.alloc(), b"SP2;PU0,0;PD0,-8388600;", Turn::Quarter)?);
    Ok(())
}
