//! Pictures with the pens of a carousel.
use crate::cases::text_of;
use crate::pages::eight_by_eight;
use plotraster::{
    Carousel, Encoding, Form, OverRead, OverWrite, PageChoice, Picture, Reading, RowChoice, Setup,
    Smoothing, Task, Turn, Unwatched, naming_of, read_colours, read_widths, run_task,
};
use std::alloc::Global;
use std::test::Fail;

// A dot of pen 1 and one of pen 2, whose width and colour the plot sets.
const PLOT: &[u8] = b"SP1;PW0.1;PU4,4;PD;PU;SP2;PC2,0,0,9;PU28,28;PD;";

// The picture in marks of a plot by a carousel with these colours and widths.
fn drawn(
    alloc: Global,
    reading: Reading,
    colours: &str,
    widths: &str,
    plot: &[u8],
) -> Result<String, Fail> {
    let carousel = match read_colours(colours, Carousel::empty()) {
        Ok(carousel) => carousel,
        Err(_) => return Err("bad colours".into()),
    };
    let carousel = match read_widths(widths, carousel) {
        Ok(carousel) => carousel,
        Err(_) => return Err("bad widths".into()),
    };
    let picture = Picture::Rows {
        job: eight_by_eight(Form::Marks)?,
        rows: RowChoice::all(Smoothing::NONE),
    };
    let (sink, answer) = run_task(
        alloc,
        Setup {
            reading,
            carousel: &carousel,
            choice: PageChoice::GIVEN,
            turn: Turn::None,
            counts: false,
        },
        &Task::Picture(picture),
        naming_of(""),
        &mut OverRead::new(plot),
        OverWrite::new(Vec::new(alloc)),
        &mut Unwatched,
    );
    answer?;
    let written = sink.into_inner();
    Ok(format!(in alloc; "{}", text_of(written.as_slice())?)?)
}

#[test]
fn colours_of_a_carousel(rt: HostRuntime) -> Result<(), Fail> {
    for reading in [
        Reading::Core,
        Reading::Full {
            sheet: 1,
            encoding: Encoding::ByPlot,
        },
    ] {
        let marks = drawn(rt.alloc(), reading, "2=red", "3=1", PLOT)?;
        assert_eq!(rt; marks.as_str(), "4 3 2 ff0000\n7 0 1 000000\n");
        let marks = drawn(rt.alloc(), reading, "all=#0f0,2=#123456", "3=1", PLOT)?;
        assert_eq!(rt; marks.as_str(), "4 3 2 123456\n7 0 1 00ff00\n");
    }
    Ok(())
}

// A width of 0.6 mm is 24 units, 3 pixels: the pixels beside and above are met, and those at the corners too.
#[test]
fn widths_of_a_carousel(rt: HostRuntime) -> Result<(), Fail> {
    for reading in [
        Reading::Core,
        Reading::Full {
            sheet: 1,
            encoding: Encoding::ByPlot,
        },
    ] {
        let marks = drawn(
            rt.alloc(),
            reading,
            "1=black",
            "1=0.6",
            b"SP1;PW0.1;PU28,28;PD;",
        )?;
        let wanted = "3 2 1 000000\n3 3 1 000000\n3 4 1 000000\n\
            4 2 1 000000\n4 3 1 000000\n4 4 1 000000\n\
            5 2 1 000000\n5 3 1 000000\n5 4 1 000000\n";
        assert_eq!(rt; marks.as_str(), wanted);
    }
    Ok(())
}
