//! Pictures at 1200 dots per inch, and of the largest page.
use crate::pages::{LINE, job_at};
use crate::runs::{drawn, drawn_by};
use plotraster::{Exact, Form, Gauge, Page};
use std::alloc::Global;
use std::process::Abort;
use std::test::Fail;

// 76 by 76 pixels, of which the line covers the rows 34 to 50.
#[test]
fn a_line_at_1200_dots(rt: HostRuntime) -> Result<(), Fail> {
    let mut gauge = Exact::new();
    let picture = drawn_by(rt.alloc(), &job_at(Form::Pbm, 1200)?, &mut gauge, LINE)?;
    assert_eq!(rt; gauge.tests(), 1292);
    assert_eq!(rt; picture.len(), 769);
    let mut wanted = Vec::from_slice(rt.alloc(), b"P4\n76 76\n")?;
    for row in 0..76 {
        let bits = if row < 34 || 50 < row {
            b"\0\0\0\0\0\0\0\0\0\0"
        } else {
            b"\xff\xff\xff\xff\xff\xff\xff\xff\xff\xf0"
        };
        wanted.extend_from_slice(bits)?;
    }
    assert!(rt; picture.as_slice() == wanted.as_slice());
    Ok(())
}

// Fails unless the largest page has so many rows and columns at a resolution, and its last row, where a line is, so
// many bytes, all black and the last one of these bits.
fn has_last_row(
    rt: &impl Abort,
    alloc: Global,
    dots: u32,
    side: u32,
    bytes: usize,
    last_byte: u8,
) -> Result<(), Fail> {
    let mut job = job_at(Form::Pbm, dots)?;
    job.page = Page::new(65536, 65536, 0, 0)?;
    assert_eq!(rt; job.dots.columns(&job.page), side);
    assert_eq!(rt; job.dots.rows(&job.page), side);
    job.first_row = side.saturating_sub(1);
    job.band = 1;
    let bits = drawn(alloc, &job, b"PU0,0;PD65536,0;")?;
    assert_eq!(rt; bits.len(), bytes);
    let mut wanted = vec![in alloc; 255u8; bytes.saturating_sub(1)]?;
    wanted.push(last_byte)?;
    assert!(rt; bits.as_slice() == wanted.as_slice());
    Ok(())
}

#[test]
fn the_last_row_of_the_largest_page(rt: HostRuntime) -> Result<(), Fail> {
    has_last_row(&rt, rt.alloc(), 600, 38702, 4838, 0xfc)?;
    has_last_row(&rt, rt.alloc(), 1200, 77405, 9676, 0xf8)
}
