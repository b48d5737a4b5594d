//! How often a gauge is asked, and gauges that reach other pixels than `Exact`.
ghost use Rattle.std.specs.Prelude.{◌≡◌, ◌+◌, ◌%◌, ◌&&◌, nat_eq};
ghost use Rattle.stroke_raster.specs.Covers.{covers};

use crate::pages::{CROSSING, LINE, eight_by_eight};
use crate::runs::drawn_by;
use plot_page::{Page, Stroke};
use plotraster::{Dots, Exact, Form, Gauge};
use std::alloc::Global;
use std::process::Abort;
use std::test::Fail;
use stroke_raster::{laws, near};

// The picture's bytes as a gauge makes them, from a row on, in bands of so many rows.
fn picture_by<G: Gauge>(
    alloc: Global,
    gauge: &mut G,
    form: Form,
    plot: &[u8],
    first_row: u32,
    band: u32,
) -> Result<Vec<u8>, Fail> {
    let mut job = eight_by_eight(form)?;
    job.first_row = first_row;
    job.band = band;
    Ok(drawn_by(alloc, &job, gauge, plot)?)
}

// Fails unless the marks of a plot from a row on take so many tests, in bands of any height.
fn takes_tests(
    rt: &impl Abort,
    alloc: Global,
    plot: &[u8],
    first_row: u32,
    least: u64,
    most: u64,
) -> Result<(), Fail> {
    for band in [1, 3, 8, 4096] {
        let mut gauge = Exact::new();
        picture_by(alloc, &mut gauge, Form::Marks, plot, first_row, band)?;
        let tests = gauge.tests();
        assert!(rt;
            least <= tests && tests <= most,
            "{tests} in bands of {band}"
        );
    }
    Ok(())
}

#[test]
fn counted_tests(rt: HostRuntime) -> Result<(), Fail> {
    takes_tests(&rt, rt.alloc(), LINE, 0, 8, 8)?;
    takes_tests(&rt, rt.alloc(), b"PU-5,0;PD-5,64;", 0, 0, 0)?;
    takes_tests(&rt, rt.alloc(), b"PU-3,0;PD-3,64;", 0, 8, 8)?;
    takes_tests(&rt, rt.alloc(), CROSSING, 0, 22, 24)?;
    takes_tests(&rt, rt.alloc(), CROSSING, 5, 10, 11)?;
    takes_tests(&rt, rt.alloc(), b"PU0,0;PD64,64;", 0, 22, 64)
}

/// A gauge by which a stroke reaches, of the pixels that it covers, those whose row and column have a sum with this
/// remainder by 2: every second one, as on a chessboard, or none if it is neither 0 nor 1.
#[derive(Drop)]
struct Chessboard {
    remainder: u32,
    tests: u64,
}

impl Gauge for Chessboard {
    ghost reaches = { λ g stroke page dots row column. covers stroke page dots row column
        && nat_eq ((row + column) % 2) g.remainder };

    ghost count = { λ g. g.tests };

    fn meets(&mut self, stroke: &Stroke, page: &Page, dots: Dots, row: u32, column: u32) -> bool {
        if self.tests < u64::MAX {
            self.tests += 1;
        }
        near(stroke, page, dots, row, column) && (row + column) % 2 == self.remainder
    }

    fn tests(&self) -> u64 {
        self.tests
    }

    fn keeps_to_boxes(&self) {
        laws::covered_pixels_in_the_box();
    }
}

fn with_remainder(remainder: u32) -> Chessboard {
    Chessboard {
        remainder,
        tests: 0,
    }
}

#[test]
fn a_gauge_that_reaches_nothing(rt: HostRuntime) -> Result<(), Fail> {
    for band in [1, 3, 4096] {
        let mut never = with_remainder(2);
        let marks = picture_by(rt.alloc(), &mut never, Form::Marks, CROSSING, 0, band)?;
        assert!(rt; marks.is_empty());
        assert!(rt; 0 < never.tests());
        let bits = picture_by(rt.alloc(), &mut never, Form::Pbm, CROSSING, 0, band)?;
        assert!(rt; bits.as_slice() == b"P4\n8 8\n\0\0\0\0\0\0\0\0".as_slice());
    }
    Ok(())
}

// What is between the pixels that such a gauge reaches stays as it was.
#[test]
fn a_gauge_with_gaps(rt: HostRuntime) -> Result<(), Fail> {
    let wide = b"PW1.6;PU0,28;PD64,28;";
    for band in [1, 3, 4096] {
        let bits = picture_by(rt.alloc(), &mut with_remainder(0), Form::Pbm, wide, 0, band)?;
        let wanted = b"P4\n8 8\n\xaa\x55\xaa\x55\xaa\x55\xaa\x55".as_slice();
        assert!(rt; bits.as_slice() == wanted, "bands of {band}");
    }
    let marks = picture_by(
        rt.alloc(),
        &mut with_remainder(0),
        Form::Marks,
        CROSSING,
        4,
        2,
    )?;
    let wanted = b"4 0 1 000000\n4 2 1 000000\n4 4 1 000000\n4 6 1 000000\n5 3 2 ff0000\n\
6 0 1 000000\n6 2 1 000000\n6 4 1 000000\n6 6 1 000000\n7 3 2 ff0000\n"
        .as_slice();
    assert!(rt; marks.as_slice() == wanted);
    Ok(())
}
