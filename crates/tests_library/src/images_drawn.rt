//! Plots of the profile full with images, as pictures, documents and reports.
use crate::pages::{eight_by_eight, placed_on};
use crate::placements::fitted;
use crate::readings::reported;
use crate::runs::drawn_as;
use crate::sheets::{ALL, drawing, picture_of, rows_of};
use crate::streams::Writer;
use crate::turned_pictures::{can_be_turned, written};
use crate::vectors::{count_of, job_of, run};
use plotraster::{
    Carousel, Encoding, Form, OverRead, OverWrite, PageChoice, PenSet, Reading, Setup, Turn,
    VectorFormat, naming_of, report_on,
};
use std::alloc::Global;
use std::test::Fail;

// An image of a row of eight dots, each 8 plotter units a side, of which the second one from below is black. Its corner is the
// place of the pen.
const IMAGE: &str = "\x1b%1A\x1b*t127R\x1b*r1A\x1b*b1W@\x1b%1B";

// Three sheets, on each of which ! stands for the image: a line and an image beside it; an image under a line, and one over it;
// and an image alone.
const SHEETS: &str =
    "SP1;PU4,4;PD12,4;PU40,-8;!PG;PU24,48;!SP2;PU20,60;PD36,60;PU16,48;!PG;PU56,24;!";

// What is seen of each sheet, in marks.
const SEEN: [&str; 4] = [
    "0 2 0 000000\n0 3 2 ff0000\n0 4 2 ff0000\n3 7 0 000000\n7 0 1 000000\n7 1 1 000000\n7 5 0 000000\n",
    "7 0 1 000000\n7 1 1 000000\n7 5 0 000000\n",
    "0 2 0 000000\n0 3 2 ff0000\n0 4 2 ff0000\n",
    "3 7 0 000000\n",
];

// A plot in which ! stands for the image.
fn plot_of(alloc: Global, text: &str) -> Result<String, Fail> {
    let mut plot = String::new(alloc);
    let mut parts = text.split("!");
    plot.push_str(parts.next().unwrap_or_default())?;
    for part in parts {
        plot.push_str(IMAGE)?;
        plot.push_str(part)?;
    }
    Ok(plot)
}

fn sheet_of(sheet: u32) -> Reading {
    Reading::Full {
        sheet,
        encoding: Encoding::ByPlot,
    }
}

#[test]
fn images_of_each_sheet(rt: HostRuntime) -> Result<(), Fail> {
    let alloc = rt.alloc();
    let plot = plot_of(alloc, SHEETS)?;
    let job = eight_by_eight(Form::Marks)?;
    let mut sheet = 0u32;
    for wanted in SEEN {
        let marks = drawn_as(alloc, sheet_of(sheet), &job, plot.as_bytes())?;
        assert_eq!(rt; str::from_utf8(marks.as_slice())?, wanted, "{sheet}");
        sheet = sheet.saturating_add(1);
    }
    Ok(())
}

#[test]
fn images_of_sheets_of_one_drawing(rt: HostRuntime) -> Result<(), Fail> {
    let alloc = rt.alloc();
    let plot = plot_of(alloc, SHEETS)?;
    let picture = rows_of(eight_by_eight(Form::Marks)?);
    let choice = PageChoice::GIVEN;
    let drawing = drawing(alloc, ALL, choice, &picture, plot.as_bytes())?;
    assert_eq!(rt; drawing.sheets(), 3);
    let mut sheet = 0u32;
    for wanted in SEEN {
        let marks = picture_of(alloc, &drawing, sheet, choice, &picture)?;
        assert_eq!(rt; str::from_utf8(marks.as_slice())?, wanted, "{sheet}");
        sheet = sheet.saturating_add(1);
    }
    Ok(())
}

#[test]
fn images_in_groups_of_sheets(rt: HostRuntime) -> Result<(), Fail> {
    let alloc = rt.alloc();
    let plot = plot_of(alloc, SHEETS)?;
    let run = run(
        alloc,
        ALL,
        job_of(VectorFormat::Svg, PenSet::all())?,
        naming_of(""),
        plot.as_bytes(),
        Writer::new(alloc),
    );
    assert_eq!(rt; run.answer?.done.images, 4);
    let mut groups = str::from_utf8(run.writer.bytes.as_slice())?.split("<g id=\"sheet-");
    for wanted in [0, 1, 2, 1] {
        let group = groups.next().ok_or("no group")?;
        assert_eq!(rt; count_of(group.as_bytes(), b"<image"), wanted);
    }
    Ok(())
}

// The first two of these sheets, after an instruction that is not known.
const NOTED: &str = "ZZ;SP1;PU4,4;PD12,4;PU40,-8;!PG;PU24,48;!SP2;PU20,60;PD36,60;PU16,48;!";

#[test]
fn a_report_on_images(rt: HostRuntime) -> Result<(), Fail> {
    let alloc = rt.alloc();
    let plot = plot_of(alloc, NOTED)?;
    let page = eight_by_eight(Form::Pbm)?.page;
    let report = reported(alloc, sheet_of(2), &page, plot.as_bytes())?;
    assert_eq!(rt;
        report.as_str(),
        "Done { rows: 0, bytes: 178, strokes: 1, areas: 0, images: 2, notes: 1 }\n\
page 64 64 0 0\nsheets 2\nstrokes 1\nimages 2\npen 2 strokes 1 widest 224 box 320 960 576 960\n\
image 8 1 127 box 384 768 512 1792\nimage 8 1 127 box 256 768 384 1792\n\
note 0 skipped ZZ\n"
    );
    Ok(())
}

// Plots, and the page around what they draw with a margin of 1 mm, or 40 plotter units.
const AROUND: [(&str, &str); 5] = [
    ("PU100,200;!", "Fitted 0 0 0 page 88 144 -60 -160"),
    ("PU-100,-80;!", "Fitted 0 0 0 page 88 144 140 120"),
    ("PU0,0;!PU-16,-8;!", "Fitted 0 0 0 page 104 152 56 48"),
    (
        "SP1;PW0;PU0,0;PD4,0;PU100,200;!",
        "Fitted 1 0 0 page 188 344 40 40",
    ),
    ("PU-300000,0;!PU300000,0;!", "TooLarge 0 0 0 page 64 64 0 0"),
];

#[test]
fn pages_around_images(rt: HostRuntime) -> Result<(), Fail> {
    let alloc = rt.alloc();
    let page = eight_by_eight(Form::Pbm)?.page;
    for (text, wanted) in AROUND {
        let plot = plot_of(alloc, text)?;
        let answer = placed_on(alloc, &page, sheet_of(1), fitted(1), plot.as_str())?;
        assert_eq!(rt; answer.as_str(), wanted, "{text}");
    }
    Ok(())
}

// Two images without a margin: the first one is in the upper right corner, the second one in the lower left one.
#[test]
fn images_moved_to_their_page(rt: HostRuntime) -> Result<(), Fail> {
    let alloc = rt.alloc();
    let plot = plot_of(alloc, "PU152,192;!PU96,184;!")?;
    let picture = rows_of(eight_by_eight(Form::Marks)?);
    let choice = fitted(0);
    let drawing = drawing(alloc, ALL, choice, &picture, plot.as_bytes())?;
    let marks = picture_of(alloc, &drawing, 0, choice, &picture)?;
    assert_eq!(rt;
        str::from_utf8(marks.as_slice())?,
        "6 7 0 000000\n7 0 0 000000\n"
    );
    Ok(())
}

// What is drawn of an image after each turn of a page of 64 by 128 plotter units.
const TURNED: [(Turn, &[u8]); 4] = [
    (
        Turn::None,
        b"P4\n8 16\n\x00\x00\x00\x00\x00\x00\x00\x00\x00\x00\x00\x00\x00\x00\x20\x00",
    ),
    (
        Turn::Quarter,
        b"P4\n16 8\n\x00\x00\x00\x00\x00\x00\x00\x00\x00\x00\x00\x02\x00\x00\x00\x00",
    ),
    (
        Turn::Half,
        b"P4\n8 16\n\x00\x04\x00\x00\x00\x00\x00\x00\x00\x00\x00\x00\x00\x00\x00\x00",
    ),
    (
        Turn::ThreeQuarters,
        b"P4\n16 8\n\x00\x00\x00\x00\x40\x00\x00\x00\x00\x00\x00\x00\x00\x00\x00\x00",
    ),
];

#[test]
fn images_turned_with_their_page(rt: HostRuntime) -> Result<(), Fail> {
    let alloc = rt.alloc();
    let plot = plot_of(alloc, "PU16,0;!")?;
    for (turn, wanted) in TURNED {
        let bytes = written(alloc, plot.as_bytes(), turn)?;
        assert_eq!(rt; bytes.as_slice(), wanted);
    }
    Ok(())
}

// An image that would end too far right of the page.
#[test]
fn images_too_far_away(rt: HostRuntime) -> Result<(), Fail> {
    let alloc = rt.alloc();
    let plot = plot_of(alloc, "PU0,-8388600;!")?;
    assert!(rt; can_be_turned(alloc, plot.as_bytes(), Turn::None)?);
    assert!(rt; !can_be_turned(alloc, plot.as_bytes(), Turn::Quarter)?);
    Ok(())
}

// Plots, and whether all that they draw lies off the page.
const OFF_PAGE: [(&str, bool); 8] = [
    ("", true),
    ("!", false),
    ("PU100,0;!", true),
    ("PU100,0;!PU0,0;!", false),
    ("PU0,0;!PU100,0;!", false),
    ("PU0,28;PD64,28;PU100,0;!", false),
    ("PU0,-28;PD64,-28;PU100,0;!", true),
    ("PU0,-28;PD64,-28;PU0,0;!", false),
];

#[test]
fn images_off_the_page(rt: HostRuntime) -> Result<(), Fail> {
    let alloc = rt.alloc();
    for (text, wanted) in OFF_PAGE {
        let plot = plot_of(alloc, text)?;
        assert_eq!(rt; is_off_page(alloc, plot.as_bytes())?, wanted, "{text}");
    }
    Ok(())
}

// Whether `report_on` finds that all that a plot draws lies off the page.
fn is_off_page(alloc: Global, plot: &[u8]) -> Result<bool, Fail> {
    let setup = Setup {
        reading: sheet_of(1),
        carousel: &Carousel::empty(),
        choice: PageChoice::GIVEN,
        turn: Turn::None,
        counts: false,
    };
    let page = eight_by_eight(Form::Pbm)?.page;
    let mut sink = OverWrite::new(Vec::new(alloc));
    let outcome = report_on(alloc, setup, &page, &mut OverRead::new(plot), &mut sink)?;
    Ok(outcome.is_off_page)
}
