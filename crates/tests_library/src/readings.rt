//! Plots that are read in the profile full.
use crate::cases::text_of;
use crate::pages::eight_by_eight;
use crate::runs::drawn_as;
use plotraster::{
    Carousel, CharacterSet, Encoding, Form, OverRead, OverWrite, Page, PageChoice, Reading, Setup,
    Turn, report_on,
};
use std::alloc::Global;
use std::process::Abort;
use std::test::Fail;

// A line in the middle of row 4 and, on a second sheet, one in the middle of column 3.
const SHEETS: &[u8] = b"SP1;PU0,28;PD64,28;PG;PU28,0;PD28,64;";

// Dashes of 24 plotter units and gaps as long: the pixel of column 4 is in the first gap.
const DASHED: &[u8] = b"LT2,1.2,1;SP1;PU0,28;PD64,28;";

// Fails unless the bitmap of a plot, 8 rows of a byte, is this.
fn has_rows(
    rt: &impl Abort,
    alloc: Global,
    reading: Reading,
    plot: &[u8],
    rows: [u8; 8],
) -> Result<(), Fail> {
    let picture = drawn_as(alloc, reading, &eight_by_eight(Form::Pbm)?, plot)?;
    let found = picture.as_slice().strip_prefix(b"P4\n8 8\n");
    assert!(rt; found == Some(rows.as_slice()), "{reading:?}");
    Ok(())
}

#[test]
fn dashes_only_in_full(rt: HostRuntime) -> Result<(), Fail> {
    let full = Reading::Full {
        sheet: 1,
        encoding: Encoding::ByPlot,
    };
    has_rows(&rt, rt.alloc(), full, DASHED, [0, 0, 0, 0, 0xf7, 0, 0, 0])?;
    has_rows(
        &rt,
        rt.alloc(),
        Reading::Core,
        DASHED,
        [0, 0, 0, 0, 0xff, 0, 0, 0],
    )
}

#[test]
fn a_sheet_or_all(rt: HostRuntime) -> Result<(), Fail> {
    let sheets = [
        [0x10, 0x10, 0x10, 0x10, 0xff, 0x10, 0x10, 0x10],
        [0, 0, 0, 0, 0xff, 0, 0, 0],
        [0x10; 8],
        [0; 8],
    ];
    let mut sheet = 0u32;
    for rows in sheets {
        has_rows(
            &rt,
            rt.alloc(),
            Reading::Full {
                sheet,
                encoding: Encoding::ByPlot,
            },
            SHEETS,
            rows,
        )?;
        sheet = sheet.saturating_add(1);
    }
    Ok(())
}

// The letter o with a dieresis in Latin-1, which is another character in Roman-8.
const LETTER: &[u8] = b"SP1;PU0,0;LB\xf6\x03";

#[test]
fn characters_by_the_reading_or_by_the_plot(rt: HostRuntime) -> Result<(), Fail> {
    let (alloc, job) = (rt.alloc(), eight_by_eight(Form::Pbm)?);
    let by_plot = Reading::Full {
        sheet: 1,
        encoding: Encoding::ByPlot,
    };
    let latin = Reading::Full {
        sheet: 1,
        encoding: Encoding::Always(CharacterSet::Latin1),
    };
    let letter = drawn_as(alloc, latin, &job, LETTER)?;
    let chosen = drawn_as(alloc, by_plot, &job, b"SD1,14;SP1;PU0,0;LB\xf6\x03")?;
    assert!(rt; letter.as_slice() == chosen.as_slice());
    let other = drawn_as(alloc, by_plot, &job, LETTER)?;
    assert!(rt; letter.as_slice() != other.as_slice());
    Ok(())
}

// What `report_on` answers and writes on the page that is given.
pub fn reported(alloc: Global, reading: Reading, page: &Page, plot: &[u8]) -> Result<String, Fail> {
    let mut sink = OverWrite::new(Vec::new(alloc));
    let mut source = OverRead::new(plot);
    let choice = PageChoice::GIVEN;
    let done = report_on(
        alloc,
        Setup {
            reading,
            carousel: &Carousel::empty(),
            choice,
            turn: Turn::None,
            counts: false,
        },
        page,
        &mut source,
        &mut sink,
    )?
    .done;
    let written = sink.into_inner();
    let report = text_of(written.as_slice())?;
    Ok(format!(in alloc; "{done:?}\n{report}")?)
}

#[test]
fn a_report_on_a_sheet(rt: HostRuntime) -> Result<(), Fail> {
    let second = Reading::Full {
        sheet: 2,
        encoding: Encoding::ByPlot,
    };
    let report = reported(rt.alloc(), second, &eight_by_eight(Form::Pbm)?.page, SHEETS)?;
    assert_eq!(rt;
        report.as_str(),
        "Done { rows: 0, bytes: 80, strokes: 1, areas: 0, images: 0, notes: 0 }\n\
page 64 64 0 0\nsheets 2\nstrokes 1\npen 1 strokes 1 widest 224 box 448 0 448 1024\n"
    );
    Ok(())
}

// How many sheets `report_on` counts.
fn sheets(alloc: Global, reading: Reading) -> Result<usize, Fail> {
    let mut sink = OverWrite::new(Vec::new(alloc));
    let outcome = report_on(
        alloc,
        Setup {
            reading,
            carousel: &Carousel::empty(),
            choice: PageChoice::GIVEN,
            turn: Turn::None,
            counts: false,
        },
        &eight_by_eight(Form::Pbm)?.page,
        &mut OverRead::new(SHEETS),
        &mut sink,
    )?;
    Ok(outcome.sheets)
}

#[test]
fn sheets_are_counted(rt: HostRuntime) -> Result<(), Fail> {
    assert_eq!(rt; sheets(rt.alloc(), Reading::Core)?, 0);
    for sheet in 0..4 {
        assert_eq!(rt;
            sheets(
                rt.alloc(),
                Reading::Full {
                    sheet,
                    encoding: Encoding::ByPlot
                }
            )?,
            2
        );
    }
    Ok(())
}
