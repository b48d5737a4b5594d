//! Plots of random bytes, and of random signs of instructions, against the pixel test itself.
ghost use Rattle.std.specs.Prelude.{◌<◌};
ghost use Rattle.plot_page.specs.Resolutions.{columns_of, rows_of};

use crate::pages::job_at;
use crate::runs::drawn;
use hpgl_plot::{Stroke, draw_plot};
use plotraster::{Dots, Fault, Form, Job, Page};
use std::alloc::Global;
use std::test::Fail;
use stroke_raster::near;

const SIGNS: [u8; 32] = *b"PUDASCIRWELBTO0123456789,;.-:<=\"";

// 300 bytes from a linear congruential generator: any bytes, or signs that instructions are made of.
fn random_plot(alloc: Global, seed: u32, of_signs: bool) -> Result<Vec<u8>, Fail> {
    let mut plot = Vec::new(alloc);
    let mut x = seed;
    for _ in 0..300 {
        x = x.wrapping_mul(1_664_525).wrapping_add(1_013_904_223);
        let byte = if of_signs {
            SIGNS[(x >> 27) as usize]
        } else {
            (x >> 24) as u8
        };
        plot.push(byte)?;
    }
    Ok(plot)
}

// Whether a stroke covers the pixel.
fn is_covered(strokes: &[Stroke], page: &Page, dots: Dots, row: u32, column: u32) -> bool
    requires row_in { row < rows_of page.now dots }
    requires column_in { column < columns_of page.now dots }
{
    for stroke in strokes {
        if near(stroke, page, dots, row, column) {
            return true;
        }
    }
    false
}

// The bits of a bitmap after its head, from the first row's first pixel on, as `near` gives them.
fn wanted_bits(alloc: Global, job: &Job, plot: &[u8]) -> Result<Vec<u8>, Fail> {
    let strokes = draw_plot(alloc, plot, &job.page)?.strokes;
    let mut bits = Vec::new(alloc);
    for row in 0..job.dots.rows(&job.page) {
        let mut byte = 0u8;
        let columns = job.dots.columns(&job.page);
        for column in 0..columns {
            let bit = is_covered(strokes.as_slice(), &job.page, job.dots, row, column);
            byte = byte << 1 | u8::from(bit);
            if column % 8 == 7 {
                bits.push(byte)?;
                byte = 0;
            }
        }
        if columns % 8 != 0 {
            bits.push(byte << (8 - columns % 8))?;
        }
    }
    Ok(bits)
}

// Whether the plot has a picture: then it is that of `near`, in bands of any height.
fn has_exact_picture(alloc: Global, resolution: u32, plot: &[u8]) -> Result<bool, Fail> {
    let mut job = job_at(Form::Pbm, resolution)?;
    let picture = match drawn(alloc, &job, plot) {
        Ok(picture) => picture,
        Err(Fault::Plot(_)) => return Ok(false),
        Err(_) => return Err(Fail::from("another fault")),
    };
    let wanted = wanted_bits(alloc, &job, plot)?;
    if !picture.as_slice().ends_with(wanted.as_slice()) {
        return Err(Fail::from("another picture than that of `near`"));
    }
    for band in [1, 3, 4096] {
        job.band = band;
        let again = drawn(alloc, &job, plot)?;
        if again.as_slice() != picture.as_slice() {
            return Err(Fail::from("another picture in other bands"));
        }
    }
    Ok(true)
}

#[test]
fn random_plots(rt: HostRuntime) -> Result<(), Fail> {
    let mut pictures = 0u32;
    for seed in 1..=200 {
        for of_signs in [false, true] {
            let plot = random_plot(rt.alloc(), seed, of_signs)?;
            for resolution in [127, 1200] {
                if has_exact_picture(rt.alloc(), resolution, plot.as_slice())? {
                    pictures = pictures.saturating_add(1);
                }
            }
        }
    }
    assert!(rt; 100 < pictures, "{pictures} pictures");
    Ok(())
}
