//! Bands, rows and marks of a painter, bands of an inker, and which pixels a stroke covers.
use crate::strokes::{
    WHOLE, dots, inked, inker, is_near, next_band, page, painter, stroke, tell_bytes, tell_cells,
};
use plot_page::{Dots, Page, PenSet, Stroke, Window};
use std::alloc::{AllocError, Global};
use std::test::Fail;
use stroke_raster::{Band, Exact, Inker, PaintFault, Painter};

// A stroke of pen 1 in row 4 and one of pen 2 in column 3, on a page of 8 by 8 pixels.
fn cross() -> Result<[Stroke; 2], Fail> {
    let across = stroke(1, 224, WHOLE, [0, 448, 1024, 448])?;
    let down = stroke(2, 224, WHOLE, [448, 0, 448, 1024])?;
    Ok([across, down])
}

// Adds the next band: a line with its first row and its height, and then its rows.
fn tell_band(told: &mut String, painter: &mut Painter<'_>) -> Result<(), AllocError> {
    let Some(band) = next_band(painter, &mut Exact::new()) else {
        return told.push_str("none\n");
    };
    let (first, height) = (band.first(), band.rows());
    write!(told, "from {first}, {height} rows\n")?;
    for i in 0..height {
        tell_cells(told, band.row(i))?;
    }
    Ok(())
}

const BANDS: &str = "\
from 1, 3 rows
...2....
...2....
...2....
from 4, 3 rows
11121111
...2....
...2....
from 7, 1 rows
...2....
none
none
";

#[test]
fn bands_of_three_rows(rt: HostRuntime) -> Result<(), Fail> {
    let strokes = cross()?;
    let mut painter = painter(rt.alloc(), &strokes, dots(127)?, PenSet::all(), 3, 1)?;
    let mut told = String::new(rt.alloc());
    for _ in 0..5 {
        tell_band(&mut told, &mut painter)?;
    }
    assert_eq!(rt; told.as_str(), BANDS);
    Ok(())
}

// Adds the bytes of the next band of an inker.
fn tell_inked(told: &mut String, inker: &mut Inker<'_>) -> Result<(), AllocError> {
    match inked(inker, &mut Exact::new()) {
        Some(bytes) => tell_bytes(told, bytes),
        None => told.push_str("none\n"),
    }
}

const INKED_BANDS: &str = "
 10 00 10 00 10 00
 ff 00 10 00 10 00
 10 00
none
none
";

// A page of 9 by 8 pixels, so that a row has padding. Before the first band there are no bytes.
#[test]
fn bits_in_bands_of_three_rows(rt: HostRuntime) -> Result<(), Fail> {
    let page = Page::new(72, 64, 0, 0).ok().ok_or("a page")?;
    let strokes = cross()?;
    let mut inker = inker(rt.alloc(), &strokes, page, dots(127)?, PenSet::all(), 3, 1)?;
    let mut told = String::new(rt.alloc());
    tell_bytes(&mut told, inker.bytes())?;
    for _ in 0..5 {
        tell_inked(&mut told, &mut inker)?;
    }
    assert_eq!(rt; told.as_str(), INKED_BANDS);
    Ok(())
}

fn fault_told(fault: Option<PaintFault>) -> &'static str {
    match fault {
        Some(PaintFault::Band) => "band",
        Some(PaintFault::Row) => "row",
        Some(PaintFault::Memory) => "memory",
        None => "none",
    }
}

// Adds a line with the faults that a painter and an inker of no strokes have, on a page of 8 rows.
fn tell_faults(
    alloc: Global,
    told: &mut String,
    band_rows: u32,
    first_row: u32,
) -> Result<(), Fail> {
    let (page, dots, pens) = (page()?, dots(127)?, PenSet::all());
    let painter = Painter::new(alloc, &[], page, dots, pens, band_rows, first_row);
    let painting = fault_told(painter.err());
    let inker = Inker::new(alloc, &[], page, dots, pens, band_rows, first_row);
    let inking = fault_told(inker.err());
    write!(told, "{painting} {inking}\n")?;
    Ok(())
}

#[test]
fn painters_and_inkers_that_are_refused(rt: HostRuntime) -> Result<(), Fail> {
    let mut told = String::new(rt.alloc());
    tell_faults(rt.alloc(), &mut told, 0, 9)?;
    tell_faults(rt.alloc(), &mut told, 1, 9)?;
    tell_faults(rt.alloc(), &mut told, 4096, 8)?;
    assert_eq!(rt; told.as_str(), "band band\nrow row\nnone none\n");
    Ok(())
}

// Adds the marks of the bands of two rows, from row 3 on, on a page of 8 by 8 pixels: a line for each band.
fn tell_marks(
    alloc: Global,
    told: &mut String,
    strokes: &[Stroke],
    pens: PenSet,
) -> Result<(), Fail> {
    let mut painter = painter(alloc, strokes, dots(127)?, pens, 2, 3)?;
    for _ in 0..4 {
        match next_band(&mut painter, &mut Exact::new()) {
            Some(band) => tell_marks_of(told, &band)?,
            None => told.push_str("none\n")?,
        }
    }
    Ok(())
}

fn tell_marks_of(told: &mut String, band: &Band<'_>) -> Result<(), AllocError> {
    for (row, column, position) in band.marks() {
        write!(told, "[{row} {column} {position}]")?;
    }
    told.push_str("\n")
}

const MARKS: &str = "\
[3 3 2][4 3 2]
[5 3 2][6 3 2]
[7 3 2]
none
[3 1 1][3 5 2][4 1 1][4 5 2]
[5 1 1][5 5 2][6 1 1][6 5 2]
[7 1 1][7 5 2]
none
";

// One of two strokes, and two strokes down the page, with blank columns before, between and after them.
#[test]
fn marks_of_bands(rt: HostRuntime) -> Result<(), Fail> {
    let mut told = String::new(rt.alloc());
    tell_marks(rt.alloc(), &mut told, &cross()?, PenSet::none().with(2))?;
    let left = stroke(1, 224, WHOLE, [192, 0, 192, 1024])?;
    let right = stroke(2, 224, WHOLE, [704, 0, 704, 1024])?;
    tell_marks(rt.alloc(), &mut told, &[left, right], PenSet::all())?;
    assert_eq!(rt; told.as_str(), MARKS);
    Ok(())
}

#[test]
fn sets_of_pens(rt: HostRuntime) {
    assert!(rt; PenSet::none().with(0).has(0));
    assert!(rt; !PenSet::all().has(0));
    assert!(rt; PenSet::all().has(255));
}

// Adds a line with the rows and the columns of a page at a resolution.
fn tell_size(told: &mut String, width: u32, height: u32, per_inch: u32) -> Result<(), Fail> {
    let page = Page::new(width, height, 0, 0).ok().ok_or("a page")?;
    let dots = dots(per_inch)?;
    let (rows, columns) = (dots.rows(&page), dots.columns(&page));
    write!(told, "{rows} by {columns}\n")?;
    Ok(())
}

// A pixel of which half is on the page counts.
#[test]
fn rows_and_columns(rt: HostRuntime) -> Result<(), Fail> {
    let mut told = String::new(rt.alloc());
    tell_size(&mut told, 64, 64, 127)?;
    tell_size(&mut told, 127, 126, 20)?;
    assert_eq!(rt; told.as_str(), "8 by 8\n2 by 3\n");
    Ok(())
}

// Adds a line with the pixels of a row of eight that a horizontal stroke covers, and a name; the ends are in x.
fn tell_covered(
    told: &mut String,
    name: &str,
    width: u32,
    window: Window,
    y: i32,
    ends: [i32; 2],
    row: u32,
) -> Result<(), Fail> {
    let (page, dots) = (page()?, dots(127)?);
    let [from, to] = ends;
    let stroke = stroke(1, width, window, [from, y, to, y])?;
    for column in 0..8 {
        let is_covered = is_near(&stroke, &page, dots, row, column);
        told.push_str(if is_covered { "#" } else { "." })?;
    }
    write!(told, " {name}\n")?;
    Ok(())
}

const COVERED: &str = "\
######## a tie
........ less than a tie
........ a window whose edges are the wrong way round
######## a tie of the least width
........ more than the least width
.####... past the ends
";

// Nothing is in a window whose edges are the wrong way round, not even its edges. A line is drawn at least one and a
// half pixels wide, 192 grains here. Past an end only the distance to that end counts, not the one to the line.
#[test]
fn covered_pixels(rt: HostRuntime) -> Result<(), Fail> {
    let told = &mut String::new(rt.alloc());
    let whole = [0, 1024];
    tell_covered(told, "a tie", 256, WHOLE, 448, whole, 3)?;
    tell_covered(told, "less than a tie", 255, WHOLE, 448, whole, 3)?;
    let empty = Window {
        x0: 448,
        x1: 0,
        ..WHOLE
    };
    let name = "a window whose edges are the wrong way round";
    tell_covered(told, name, 224, empty, 448, whole, 4)?;
    tell_covered(told, "a tie of the least width", 0, WHOLE, 544, whole, 4)?;
    tell_covered(told, "more than the least width", 0, WHOLE, 545, whole, 4)?;
    tell_covered(told, "past the ends", 224, WHOLE, 448, [256, 512], 4)?;
    assert_eq!(rt; told.as_str(), COVERED);
    Ok(())
}
