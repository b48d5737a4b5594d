//! Plots of the profile full with areas, as pictures, documents and reports.
use crate::pages::eight_by_eight;
use crate::readings::reported;
use crate::runs::drawn_as;
use crate::sheets::{ALL, drawing, picture_of, rows_of};
use crate::streams::Writer;
use crate::vectors::{FOOT, HEAD, job_of, joined, run};
use plotraster::{Encoding, Form, PageChoice, PenSet, Reading, VectorFormat, naming_of};
use std::test::Fail;

// A square of pen 2, and a line of pen 1 over it.
const SQUARE_AND_LINE: &[u8] = b"SP2;PU16,16;RA48,48;SP1;PU0,28;PD64,28;";

// A line and a square on the first sheet, and a square on the second.
const SHEETS: &[u8] = b"PU0,60;PD64,60;PU16,16;RA48,48;PG;PU8,8;RA48,40;";

fn sheet_of(sheet: u32) -> Reading {
    Reading::Full {
        sheet,
        encoding: Encoding::ByPlot,
    }
}

#[test]
fn a_square_and_a_line(rt: HostRuntime) -> Result<(), Fail> {
    let alloc = rt.alloc();
    let job = job_of(VectorFormat::Svg, PenSet::all())?;
    let run = run(
        alloc,
        sheet_of(1),
        job,
        naming_of(""),
        SQUARE_AND_LINE,
        Writer::new(alloc),
    );
    let area =
        "<path class=\"pen2\" stroke=\"#ff0000\" stroke-width=\"24\" fill=\"#ff0000\" fill-rule=\"evenodd\" \
d=\"M256 768l512 0l0 -512l-512 0l0 512\"/>\n";
    let line =
        "<path class=\"pen1\" stroke=\"#000000\" stroke-width=\"224\" d=\"M0 576l1024 0\"/>\n";
    let want = joined(alloc, &[HEAD, area, line, FOOT])?;
    assert_eq!(rt; str::from_utf8(run.writer.bytes.as_slice())?, want.as_str());
    let done = run.answer?.done;
    assert_eq!(rt; (done.strokes, done.areas), (1, 1));
    Ok(())
}

// Rows and columns 1 to 6: the centres of 2 to 5 are inside, those of 1 and 6 are 4 units from an edge.
#[test]
fn a_square_in_black_and_white(rt: HostRuntime) -> Result<(), Fail> {
    let job = eight_by_eight(Form::Pbm)?;
    let picture = drawn_as(rt.alloc(), sheet_of(1), &job, b"PU16,16;RA48,48;")?;
    let row = 0b0111_1110;
    let rows = [0, row, row, row, row, row, row, 0];
    assert_eq!(rt;
        picture.as_slice().get(picture.len().saturating_sub(8)..),
        Some(rows.as_slice())
    );
    Ok(())
}

#[test]
fn an_area_on_the_second_sheet(rt: HostRuntime) -> Result<(), Fail> {
    let alloc = rt.alloc();
    let job = eight_by_eight(Form::Pbm)?;
    let second = drawn_as(alloc, sheet_of(2), &job, SHEETS)?;
    let alone = drawn_as(alloc, sheet_of(1), &job, b"PU8,8;RA48,40;")?;
    assert!(rt; second.as_slice() == alone.as_slice());
    Ok(())
}

#[test]
fn sheets_of_one_drawing(rt: HostRuntime) -> Result<(), Fail> {
    let alloc = rt.alloc();
    let job = eight_by_eight(Form::Pbm)?;
    let picture = rows_of(job);
    let choice = PageChoice::GIVEN;
    let drawing = drawing(alloc, ALL, choice, &picture, SHEETS)?;
    for sheet in 0..4 {
        let one = picture_of(alloc, &drawing, sheet, choice, &picture)?;
        let single = drawn_as(alloc, sheet_of(sheet), &job, SHEETS)?;
        assert!(rt; one.as_slice() == single.as_slice(), "{sheet}");
    }
    Ok(())
}

#[test]
fn a_report_on_areas(rt: HostRuntime) -> Result<(), Fail> {
    let page = eight_by_eight(Form::Pbm)?.page;
    let report = reported(rt.alloc(), sheet_of(1), &page, SQUARE_AND_LINE)?;
    assert_eq!(rt;
        report.as_str(),
        "Done { rows: 0, bytes: 130, strokes: 1, areas: 1, images: 0, notes: 0 }\n\
page 64 64 0 0\nsheets 1\nstrokes 1\nareas 1\npen 1 strokes 1 widest 224 box 0 448 1024 448\n\
pen 2 areas 1 edges 4 box 256 256 768 768\n"
    );
    Ok(())
}
