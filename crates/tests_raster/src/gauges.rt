//! How often a gauge is asked, and a gauge that leaves gaps.
ghost use Rattle.std.specs.Prelude.{◌≡◌, ◌%◌, ◌&&◌, nat_eq};
ghost use Rattle.stroke_raster.specs.Covers.{covers};

use crate::strokes::{WHOLE, bits_by, cells_by, dots, page, stroke, tell_bytes, tell_cells};
use plot_page::{Dots, Page, PenSet, Stroke};
use std::alloc::Global;
use std::test::Fail;
use stroke_raster::{Exact, Gauge, laws, near};

/// A gauge by which a stroke reaches the odd columns of the pixels that it covers.
#[derive(Drop)]
struct Odd {
    tests: u64,
}

impl Gauge for Odd {
    ghost reaches = { λ _ stroke page dots row column. covers stroke page dots row column && nat_eq (column % 2) 1 };

    ghost count = { λ g. g.tests };

    fn meets(&mut self, stroke: &Stroke, page: &Page, dots: Dots, row: u32, column: u32) -> bool {
        if self.tests < u64::MAX {
            self.tests += 1;
        }
        near(stroke, page, dots, row, column) && column % 2 == 1
    }

    fn tests(&self) -> u64 {
        self.tests
    }

    fn keeps_to_boxes(&self) {
        laws::covered_pixels_in_the_box();
    }
}

/// A gauge that is asked for each pixel of each box.
#[derive(Drop)]
pub struct Plain {
    tests: u64,
}

impl Plain {
    pub fn new() -> Plain {
        Plain { tests: 0 }
    }
}

impl Gauge for Plain {
    ghost reaches = { λ _ stroke page dots row column. covers stroke page dots row column };

    ghost count = { λ g. g.tests };

    fn meets(&mut self, stroke: &Stroke, page: &Page, dots: Dots, row: u32, column: u32) -> bool {
        if self.tests < u64::MAX {
            self.tests += 1;
        }
        near(stroke, page, dots, row, column)
    }

    fn tests(&self) -> u64 {
        self.tests
    }

    fn keeps_to_boxes(&self) {
        laws::covered_pixels_in_the_box();
    }
}

// The cells of strokes by the gauge of odd columns and the number of its tests, and then the bits and the number of tests for them.
fn told_by_odd(alloc: Global, strokes: &[Stroke], band_rows: u32) -> Result<String, Fail> {
    let (dots, pens) = (dots(127)?, PenSet::all());
    let mut told = String::new(alloc);
    let mut gauge = Odd { tests: 0 };
    let cells = cells_by(alloc, &mut gauge, strokes, dots, pens, band_rows)?;
    tell_cells(&mut told, cells.as_slice())?;
    let tests = gauge.tests;
    write!(told, "{tests} tests\n")?;
    let mut inking = Odd { tests: 0 };
    let bits = bits_by(alloc, &mut inking, strokes, dots, pens, band_rows, 0)?;
    tell_bytes(&mut told, bits.as_slice())?;
    let tests = inking.tests;
    write!(told, "{tests} tests\n")?;
    Ok(told)
}

const BY_ODD: &str = "\
........
........
........
........
.1.2.1.1
........
........
........
10 tests
 00 00 00 00 55 00 00 00
10 tests
";

// The box of the first stroke is row 4, that of the second has two columns of it.
#[test]
fn a_gauge_with_gaps(rt: HostRuntime) -> Result<(), Fail> {
    let whole = stroke(1, 224, WHOLE, [0, 448, 1024, 448])?;
    let short = stroke(1, 224, WHOLE, [320, 448, 448, 448])?;
    for band_rows in [1, 3, 4096] {
        let told = told_by_odd(rt.alloc(), &[whole, short], band_rows)?;
        assert_eq!(rt; told.as_str(), BY_ODD, "bands of {band_rows}");
    }
    Ok(())
}

// Whether the exact gauge finds that the stroke reaches the first pixel of row 4.
fn meets(gauge: &mut Exact, stroke: &Stroke, page: &Page, dots: Dots) -> bool {
    4 < dots.rows(page) && 0 < dots.columns(page) && gauge.meets(stroke, page, dots, 4, 0)
}

#[test]
fn pixels_are_counted_once(rt: HostRuntime) -> Result<(), Fail> {
    let dots = dots(127)?;
    let whole = stroke(1, 224, WHOLE, [0, 448, 1024, 448])?;
    let mut gauge = Exact::new();
    cells_by(rt.alloc(), &mut gauge, &[whole], dots, PenSet::all(), 3)?;
    assert_eq!(rt; gauge.tests(), 8);
    assert!(rt; meets(&mut gauge, &whole, &page()?, dots));
    assert_eq!(rt; gauge.tests(), 9);
    Ok(())
}
