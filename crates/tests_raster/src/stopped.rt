//! A painter and an inker that are to stop before the last row.
use crate::strokes::{
    WHOLE, dots, inked, inker, next_band, page, painter, stroke, tell_bytes, tell_cells,
};
use plot_page::{PenSet, Stroke};
use std::alloc::Global;
use std::test::Fail;
use stroke_raster::{Exact, Inker, Painter};

// A stroke of pen 1 in row 4, one of pen 2 in column 3, and one of pen 3 in row 6, on a page of 8 by 8 pixels.
fn strokes() -> Result<[Stroke; 3], Fail> {
    let across = stroke(1, 224, WHOLE, [0, 448, 1024, 448])?;
    let down = stroke(2, 224, WHOLE, [448, 0, 448, 1024])?;
    let low = stroke(3, 224, WHOLE, [0, 192, 1024, 192])?;
    Ok([across, down, low])
}

fn stop(painter: &mut Painter<'_>, row: u32) {
    if painter.next_row() <= row && row <= painter.end_row() {
        painter.stop_at(row);
    }
}

fn stop_inking(inker: &mut Inker<'_>, row: u32) {
    if inker.next_row() <= row && row <= inker.end_row() {
        inker.stop_at(row);
    }
}

// What is painted from row 1 on in bands of so many rows, before another row, and where each band begins.
fn painted(alloc: Global, band_rows: u32, end: u32) -> Result<String, Fail> {
    let strokes = strokes()?;
    let mut painter = painter(alloc, &strokes, dots(127)?, PenSet::all(), band_rows, 1)?;
    stop(&mut painter, end);
    let mut told = String::new(alloc);
    for _ in 0..9 {
        let Some(band) = next_band(&mut painter, &mut Exact::new()) else {
            continue;
        };
        write!(told, "from {}\n", band.first())?;
        for i in 0..band.rows() {
            tell_cells(&mut told, band.row(i))?;
        }
    }
    write!(told, "{} of {}\n", painter.next_row(), painter.rows())?;
    Ok(told)
}

const TWO_AND_ONE: &str = "\
from 1
...2....
...2....
from 3
...2....
4 of 8
";

const TO_ROW_6: &str = "\
from 1
...2....
...2....
...2....
11121111
...2....
6 of 8
";

#[test]
fn painters_stop(rt: HostRuntime) -> Result<(), Fail> {
    let alloc = rt.alloc();
    assert_eq!(rt; painted(alloc, 2, 4)?.as_str(), TWO_AND_ONE);
    assert_eq!(rt; painted(alloc, 5, 6)?.as_str(), TO_ROW_6);
    assert_eq!(rt; painted(alloc, 4096, 6)?.as_str(), TO_ROW_6);
    assert_eq!(rt; painted(alloc, 3, 1)?.as_str(), "1 of 8\n");
    Ok(())
}

#[test]
fn inkers_stop(rt: HostRuntime) -> Result<(), Fail> {
    let strokes = strokes()?;
    let (page, dots) = (page()?, dots(127)?);
    let mut inker = inker(rt.alloc(), &strokes, page, dots, PenSet::all(), 4, 1)?;
    stop_inking(&mut inker, 6);
    let mut told = String::new(rt.alloc());
    for _ in 0..4 {
        if let Some(bytes) = inked(&mut inker, &mut Exact::new()) {
            tell_bytes(&mut told, bytes)?;
        }
    }
    assert_eq!(rt; told.as_str(), " 10 10 10 ff\n 10\n");
    assert_eq!(rt;
        (inker.next_row(), inker.end_row(), inker.rows()),
        (6, 6, 8)
    );
    Ok(())
}
