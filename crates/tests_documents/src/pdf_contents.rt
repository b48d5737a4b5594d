//! Contents of pages, by the length and the CRC-32 of documents of one page.
use crate::pdf_documents::bytes_of;
use crate::pdf_strokes::{BLACK, Look};
use crc32::crc_of;
use std::alloc::Global;
use std::process::Abort;
use std::test::Fail;

// Fails unless a document of a stroke has so many bytes and this CRC-32.
fn draws(
    rt: &impl Abort,
    alloc: Global,
    look: Look,
    ends: [i32; 4],
    want: (usize, u32),
) -> Result<(), Fail> {
    let document = bytes_of(rt, alloc, &[look.stroke(ends)?], &[1])?;
    assert_eq!(rt; (document.len(), crc_of(&document)), want);
    Ok(())
}

// Ends lie as far off the page as they can, with the greatest pen and the greatest width.
#[test]
fn off_the_page(rt: HostRuntime) -> Result<(), Fail> {
    let look = Look {
        pen: 255,
        colour: [1, 171, 254],
        width: 12_800,
        window: [0, 0, 1_048_576, 1_048_576],
    };
    draws(
        &rt,
        rt.alloc(),
        look,
        [-1_048_576, -1_048_576, 1_048_576, 1_048_576],
        (924, 0x1519_6e80),
    )
}

// The width is at least 24 grains.
#[test]
fn least_width(rt: HostRuntime) -> Result<(), Fail> {
    let thin = Look { width: 23, ..BLACK };
    let thick = Look { width: 25, ..BLACK };
    draws(&rt, rt.alloc(), thin, [0, 0, 0, 1], (886, 0x0221_9c13))?;
    draws(&rt, rt.alloc(), thick, [0, 0, 0, 1], (886, 0x7e9f_60f9))
}

// A window of one place, and one that differs from the page in one number.
#[test]
fn windows(rt: HostRuntime) -> Result<(), Fail> {
    let place = Look {
        window: [5, 6, 5, 6],
        ..BLACK
    };
    let part = Look {
        window: [0, 0, 16_256, 32_511],
        ..BLACK
    };
    draws(&rt, rt.alloc(), place, [0, 0, 100, 100], (902, 0x8856_476e))?;
    draws(&rt, rt.alloc(), part, [0, 0, 100, 100], (906, 0x43ab_1d92))
}
