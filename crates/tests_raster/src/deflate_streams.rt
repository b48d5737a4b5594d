// Streams that an encoder of its own made, by another program, and that zlib reads as these texts.
use crc32::crc_of;
use deflate::{Code, Deflater};
use devices::{OverWrite, Sink, put_all};
use std::alloc::Global;
use std::process::Abort;
use std::test::Fail;

// Runs of one byte, around the lengths that a match can have. In both codes they end with a whole byte.
const RUNS: [(u8, usize); 15] = [
    (0, 1),
    (255, 2),
    (0, 3),
    (1, 4),
    (0, 5),
    (7, 6),
    (0, 258),
    (128, 259),
    (0, 260),
    (64, 261),
    (0, 262),
    (3, 517),
    (0, 518),
    (9, 519),
    (1, 1),
];

const LINES: &[u8] = b"\
\x78\x01\xed\xc1\x07\x80\x1b\x67\x5a\xc7\xe1\xdf\xbc\x92\xd7\x22\x98\x78\x0c\x77\x60\x20\xc4\x83\
\x69\xc7\xd1\x16\x42\x09\x10\xce\x03\x84\xde\x4c\xf1\x71\xf4\xa5\x85\x0e\xa1\x07\x38\xe2\xcf\xe1\
\x80\xd0\x43\x87\xa3\x2d\xfd\xb8\x50\x4c\x6f\x01\xc6\x47\x80\x50\x02\x4b\x3f\x9a\x19\x87\x00\x06\
\x0e\x3c\x0e\xe6\x90\xd7\xd2\x7c\x37\x2a\xbb\x2b\xed\x4a\x5a\x49\x2b\x69\xa5\xdd\xff\xf3\xe0\x3d\
\x10\x14\x68\x38\xda\xc4\xa1\xe7\x04\x21\x96\x38\x46\x0a\x25\x11\x44\x78\x35\x91\x57\x7b\xb5\xe0\
\x55\x1b\x62\xdd\x3c";

const SHADES: &[u8] = b"\
\x78\x01\xed\xc1\x07\x80\x1c\x6d\x41\xc7\xe1\xdf\x0d\x52\xe4\x6b\x6f\x94\x5e\xfc\xe6\x44\x94\x26\
\x99\x53\x41\x05\x35\x33\x22\x0a\xb6\xec\x2a\xc5\x4a\x66\x54\xec\x92\x5d\xb1\x22\xba\xb3\x8a\x58\
\x71\x37\xd8\x45\x9d\x09\x56\x8a\xee\xc6\x06\x8a\x38\x13\x15\x54\x50\x77\x82\x34\x45\xbc\x89\xf4\
\xa2\x79\xbf\x86\x14\x71\xdc\xbb\xcb\x5d\xee\x92\xeb\xbb\x7b\x65\xef\xff\x3c\x54\x15\x30\x33\xc4\
\x82\xbb\x2e\xe2\xc8\x8b\x05\xc1\x17\xdf\x47\x86\xee\x24\x82\x08\x1f\x2b\xf2\xb1\x1f\x3b\xf3\xff\
\x1b\x62\xdd\x3c";

fn text_of_runs(alloc: Global) -> Result<Vec<u8>, Fail> {
    let mut text = Vec::new(alloc);
    for (byte, length) in RUNS {
        for _ in 0..length {
            text.push(byte)?;
        }
    }
    Ok(text)
}

// The stream of a text that comes in pieces of so many bytes.
fn stream_of(
    rt: &impl Abort,
    alloc: Global,
    code: Code,
    text: &[u8],
    size: usize,
) -> Result<Vec<u8>, Fail> {
    let mut deflater = Deflater::new(code, OverWrite::new(Vec::new(alloc)));
    for piece in text.chunks(size.max(1)) {
        assert!(rt; deflater.failures() == 0);
        put_all(&mut deflater, piece)?;
    }
    assert!(rt; deflater.failures() == 0);
    deflater.finish()?;
    Ok(deflater.into_sink().into_inner())
}

#[test]
fn runs(rt: HostRuntime) -> Result<(), Fail> {
    let text = text_of_runs(rt.alloc())?;
    for size in [1, 2, 700, 10000] {
        let lines = stream_of(&rt, rt.alloc(), Code::Lines, &text, size)?;
        assert_eq!(rt; lines.as_slice(), LINES, "pieces of {size}");
        let shades = stream_of(&rt, rt.alloc(), Code::Shades, &text, size)?;
        assert_eq!(rt; shades.as_slice(), SHADES, "pieces of {size}");
    }
    Ok(())
}

// So many bytes without an order.
pub(crate) fn noise(alloc: Global, count: u32) -> Result<Vec<u8>, Fail> {
    let mut text = Vec::new(alloc);
    let mut seed = 1u32;
    for _ in 0..count {
        seed = seed.wrapping_mul(1103515245).wrapping_add(12345) % (1 << 31);
        text.push((seed / 65536 % 256) as u8)?;
    }
    Ok(text)
}

#[test]
fn no_runs(rt: HostRuntime) -> Result<(), Fail> {
    let text = noise(rt.alloc(), 10000)?;
    let lines = stream_of(&rt, rt.alloc(), Code::Lines, &text, 10000)?;
    assert_eq!(rt; (lines.len(), crc_of(&lines)), (13836, 0xbdd16f49));
    let shades = stream_of(&rt, rt.alloc(), Code::Shades, &text, 10000)?;
    assert_eq!(rt; (shades.len(), crc_of(&shades)), (13505, 0x469cd8b8));
    Ok(())
}

// So long that the sums of the checksum are reduced on the way.
#[test]
fn long_runs(rt: HostRuntime) -> Result<(), Fail> {
    let mut text = Vec::new(rt.alloc());
    for at in 0..370000 {
        text.push(if at < 300000 { 255 } else { 1 })?;
    }
    let lines = stream_of(&rt, rt.alloc(), Code::Lines, &text, 100000)?;
    assert_eq!(rt; (lines.len(), crc_of(&lines)), (821, 0x91176525));
    Ok(())
}
