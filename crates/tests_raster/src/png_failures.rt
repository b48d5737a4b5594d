// Sinks that take little, or fail once and go on.
ghost use Rattle.png.specs.Headers.{IsSound};

use crate::narrow::narrow_sink;
use crate::png_pictures::{BIT_ROWS, BITS};
use crc32::crc_of;
use devices::{Sink, put_all};
use png::{Header, Layout, PngSink, Room};
use std::alloc::Global;
use std::process::Abort;
use std::test::Fail;

// How often the sink failed before the end, whether the end came, and what the sink has.
#[derive(Drop)]
struct Written {
    bytes: Vec<u8>,
    faults: usize,
    ended: bool,
}

// Writes rows to a sink that fails once, and goes on after the last byte that was taken.
fn going_on(
    rt: &impl Abort,
    alloc: Global,
    header: &Header<'_>,
    rows: &[u8],
    limit: usize,
    step: usize,
    faults: bool,
) -> Result<Written, Fail>
    requires { IsSound header.now }
{
    let room = Room::new(alloc, header)?;
    let mut png = PngSink::new(room, header, narrow_sink(alloc, limit, step, faults));
    let mut at = 0;
    let mut failed = 0;
    for _ in 0..3 {
        assert!(rt; at <= rows.len() && png.failures() < 9 && failed < 9);
        match put_all(&mut png, &rows[at..]) {
            Ok(()) => at = rows.len(),
            Err(fault) => {
                at += fault.bytes() as usize;
                failed += 1;
            }
        }
    }
    assert!(rt; png.failures() < 9);
    let (sink, ended) = png.finish();
    Ok(Written {
        bytes: sink.bytes,
        faults: failed,
        ended: ended.is_ok(),
    })
}

// So many bytes without order.
fn noise(alloc: Global, size: usize) -> Result<Vec<u8>, Fail> {
    let mut bytes = Vec::new(alloc);
    let mut state: u32 = 12345;
    for _ in 0..size {
        state = state.wrapping_mul(1103515245).wrapping_add(12345);
        bytes.push((state >> 24) as u8)?;
    }
    Ok(bytes)
}

// All of a small picture is written at its end. A failure there is an error, and leaves the first bytes.
#[test]
fn each_byte_of_a_small_picture(rt: HostRuntime) -> Result<(), Fail> {
    let want = going_on(&rt, rt.alloc(), &BITS, &BIT_ROWS, 1000, 1000, true)?;
    assert!(rt; want.ended && want.faults == 0);
    for limit in 0..want.bytes.len() {
        let written = going_on(&rt, rt.alloc(), &BITS, &BIT_ROWS, limit, 1, limit % 2 == 0)?;
        assert!(rt; !written.ended && written.faults == 0, "failing at {limit}");
        assert_eq!(rt;
            written.bytes.as_slice(),
            &want.bytes[..limit],
            "failing at {limit}"
        );
    }
    Ok(())
}

const NOISY: Header<'static> = Header {
    columns: 250,
    rows: 240,
    per_metre: 1000,
    layout: Layout::Grey,
};

// The PNG is the same, wherever the sink fails once on the way: before the image data, or in its first chunk.
#[test]
fn a_failure_on_the_way(rt: HostRuntime) -> Result<(), Fail> {
    let rows = noise(rt.alloc(), 60000)?;
    let want = going_on(&rt, rt.alloc(), &NOISY, &rows, 1000000, 1000000, true)?;
    assert!(rt; want.ended && want.faults == 0);
    for limit in [0, 1, 53, 54, 40000, 65601] {
        let written = going_on(&rt, rt.alloc(), &NOISY, &rows, limit, 999, limit % 2 == 0)?;
        assert!(rt; written.ended && written.faults == 1, "failing at {limit}");
        assert!(rt;
            written.bytes.as_slice() == want.bytes.as_slice(),
            "failing at {limit}"
        );
    }
    chunks(&rt, want.bytes.as_slice())
}

// Each chunk has its sum, and all chunks of image data but the last have 65,536 bytes.
fn chunks(rt: &impl Abort, png: &[u8]) -> Result<(), Fail> {
    let mut sizes = [0; 5];
    let mut rest = png.get(8..).ok_or("no signature")?;
    for count in 0..5 {
        let size = number(rest)? as usize;
        assert!(rt; size <= 100000);
        let body = rest.get(4..8 + size).ok_or("a chunk is cut")?;
        let sum = number(rest.get(8 + size..).ok_or("no sum")?)?;
        assert_eq!(rt; crc_of(body), sum, "chunk {count}");
        sizes[count] = size;
        rest = rest.get(12 + size..).ok_or("no end")?;
    }
    assert!(rt; rest.is_empty());
    assert_eq!(rt; &sizes[..3], [13, 9, 65536].as_slice());
    assert_eq!(rt; sizes[4], 0);
    Ok(())
}

// The number of the first four bytes.
fn number(bytes: &[u8]) -> Result<u32, Fail> {
    let four = bytes.get(..4).ok_or("fewer than four bytes")?;
    Ok(u32::from_be_bytes([four[0], four[1], four[2], four[3]]))
}
