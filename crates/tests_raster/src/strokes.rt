//! What the tests paint, and what is painted. No contract here promises anything, so that no proof of a test reads what
//! the painter and the inker are proved to do: a test looks at the answers.
use plot_page::{Colour, Dots, MOST_STROKES, Page, PenSet, Stroke, Window};
use std::alloc::{AllocError, Global};
use std::test::Fail;
use stroke_raster::{Band, Gauge, Inker, Painter, near};

pub const BLACK: Colour = Colour {
    red: 0,
    green: 0,
    blue: 0,
};

/// The window of a page of 64 by 64 plotter units.
pub const WHOLE: Window = Window {
    x0: 0,
    y0: 0,
    x1: 1024,
    y1: 1024,
};

/// The page of 64 by 64 plotter units.
pub fn page() -> Result<Page, Fail> {
    Ok(Page::new(64, 64, 0, 0).ok().ok_or("a page")?)
}

/// A resolution; at 127 dots per inch the page has 8 by 8 pixels.
pub fn dots(per_inch: u32) -> Result<Dots, Fail> {
    Ok(Dots::new(per_inch).ok_or("a resolution")?)
}

/// A black stroke from the first two coordinates to the last two.
pub fn stroke(pen: u8, width: u32, window: Window, ends: [i32; 4]) -> Result<Stroke, Fail> {
    let [ax, ay, bx, by] = ends;
    Ok(Stroke::new(pen, BLACK, width, window, ax, ay, bx, by).ok_or("a stroke")?)
}

/// Whether a stroke is near a pixel, which is on the page.
pub fn is_near(stroke: &Stroke, page: &Page, dots: Dots, row: u32, column: u32) -> bool {
    row < dots.rows(page) && column < dots.columns(page) && near(stroke, page, dots, row, column)
}

/// A painter of the page.
pub fn painter<'a>(
    alloc: Global,
    strokes: &'a [Stroke],
    dots: Dots,
    pens: PenSet,
    band_rows: u32,
    first_row: u32,
) -> Result<Painter<'a>, Fail> {
    if strokes.len() > MOST_STROKES {
        return Err("too many strokes".into());
    }
    let page = page()?;
    let painter = Painter::new(alloc, strokes, page, dots, pens, band_rows, first_row);
    Ok(painter.ok().ok_or("a painter")?)
}

/// The next band of a painter, by a gauge.
pub fn next_band<'b, G: Gauge>(painter: &'b mut Painter<'_>, gauge: &mut G) -> Option<Band<'b>> {
    painter.next_band(gauge)
}

/// The cells of the page, row after row, painted in bands of so many rows.
pub fn cells_by<G: Gauge>(
    alloc: Global,
    gauge: &mut G,
    strokes: &[Stroke],
    dots: Dots,
    pens: PenSet,
    band_rows: u32,
) -> Result<Vec<u32>, Fail> {
    let mut painter = painter(alloc, strokes, dots, pens, band_rows, 0)?;
    let mut cells = Vec::new(alloc);
    for _ in 0..5000 {
        if !has_more_cells(&mut painter, gauge, &mut cells)? {
            return Ok(cells);
        }
    }
    Err("more bands than rows".into())
}

// Adds the cells of the next band, if there is one.
fn has_more_cells<G: Gauge>(
    painter: &mut Painter<'_>,
    gauge: &mut G,
    cells: &mut Vec<u32>,
) -> Result<bool, AllocError> {
    let Some(band) = next_band(painter, gauge) else {
        return Ok(false);
    };
    for i in 0..band.rows() {
        cells.extend_from_slice(band.row(i))?;
    }
    Ok(true)
}

/// An inker of a page.
pub fn inker<'a>(
    alloc: Global,
    strokes: &'a [Stroke],
    page: Page,
    dots: Dots,
    pens: PenSet,
    band_rows: u32,
    first_row: u32,
) -> Result<Inker<'a>, Fail> {
    if strokes.len() > MOST_STROKES {
        return Err("too many strokes".into());
    }
    let inker = Inker::new(alloc, strokes, page, dots, pens, band_rows, first_row);
    Ok(inker.ok().ok_or("an inker")?)
}

/// The bytes of the next band of an inker, by a gauge, if there is one.
pub fn inked<'b, G: Gauge>(inker: &'b mut Inker<'_>, gauge: &mut G) -> Option<&'b [u8]> {
    if inker.ink_next(gauge) {
        Some(inker.bytes())
    } else {
        None
    }
}

/// The rows of the page from `first_row` on as an inker has them, inked in bands of so many rows.
pub fn bits_by<G: Gauge>(
    alloc: Global,
    gauge: &mut G,
    strokes: &[Stroke],
    dots: Dots,
    pens: PenSet,
    band_rows: u32,
    first_row: u32,
) -> Result<Vec<u8>, Fail> {
    let mut inker = inker(alloc, strokes, page()?, dots, pens, band_rows, first_row)?;
    let mut bytes = Vec::new(alloc);
    for _ in 0..5000 {
        match inked(&mut inker, gauge) {
            Some(band) => bytes.extend_from_slice(band)?,
            None => return Ok(bytes),
        }
    }
    Err("more bands than rows".into())
}

/// Rows of eight cells as lines, `.` for a cell that shows no stroke.
pub fn tell_cells(told: &mut String, cells: &[u32]) -> Result<(), AllocError> {
    let mut column = 0u32;
    for cell in cells {
        if *cell == 0 {
            told.push_str(".")?;
        } else {
            write!(told, "{cell}")?;
        }
        column = column.wrapping_add(1);
        if column % 8 == 0 {
            told.push_str("\n")?;
        }
    }
    Ok(())
}

/// Bytes as a line of hexadecimal numbers.
pub fn tell_bytes(told: &mut String, bytes: &[u8]) -> Result<(), AllocError> {
    for byte in bytes {
        write!(told, " {byte:02x}")?;
    }
    told.push_str("\n")
}

/// Rows of cells as bits, 1 for a cell that shows a stroke, the leftmost of eight in the highest bit.
pub fn packed(alloc: Global, cells: &[u32], columns: u32) -> Result<Vec<u8>, Fail> {
    let mut bytes = Vec::new(alloc);
    let mut column = 0u32;
    let mut byte = 0u8;
    let mut bit = 128u8;
    for cell in cells {
        if *cell != 0 {
            byte = byte.wrapping_add(bit);
        }
        bit /= 2;
        column = column.wrapping_add(1);
        if bit == 0 || column == columns {
            bytes.push(byte)?;
            byte = 0;
            bit = 128;
        }
        if column == columns {
            column = 0;
        }
    }
    Ok(bytes)
}
