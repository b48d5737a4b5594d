//! Streams of texts, by their length and their CRC-32. An encoder in Python says what these are, and zlib reads each stream
//! as its text.
use crate::deflate_streams::noise;
use crc32::crc_of;
use deflate::{PIECE, TextEncoder};
use std::alloc::Global;
use std::process::Abort;
use std::test::Fail;

// The stream of a text that comes in pieces of so many bytes.
fn stream_of(
    alloc: Global,
    encoder: &mut TextEncoder,
    text: &[u8],
    size: usize,
) -> Result<Vec<u8>, Fail> {
    let mut stream = Vec::new(alloc);
    encoder.begin();
    for piece in text.chunks(size.clamp(1, PIECE)) {
        if encoder.is_full() {
            stream.extend_from_slice(encoder.bytes())?;
            encoder.let_go();
        }
        encoder.take(piece);
    }
    stream.extend_from_slice(encoder.bytes())?;
    encoder.let_go();
    encoder.end();
    stream.extend_from_slice(encoder.bytes())?;
    Ok(stream)
}

// Fails unless the stream of a text in pieces of this size has so many bytes and this CRC-32. The encoder encodes another
// text before it.
fn encodes(
    rt: &impl Abort,
    alloc: Global,
    text: &[u8],
    size: usize,
    want: (usize, u32),
) -> Result<(), Fail> {
    let mut encoder = TextEncoder::new(alloc)?;
    stream_of(alloc, &mut encoder, b"0 16 l\n0 16 m\n", 5)?;
    let stream = stream_of(alloc, &mut encoder, text, size)?;
    assert_eq!(rt; (stream.len(), crc_of(&stream)), want, "pieces of {size}");
    Ok(())
}

// Lines between places without an order, as a content of a PDF has them.
fn lines(alloc: Global, count: u32) -> Result<Vec<u8>, Fail> {
    let mut text = Vec::new(alloc);
    let mut seed = 7u32;
    for _ in 0..count {
        seed = seed.wrapping_mul(1103515245).wrapping_add(12345) % (1 << 31);
        let line = format!(in alloc; "{} {} l\n", seed / 65536 % 4096, seed / 256 % 1024)?;
        text.extend_from_slice(line.as_bytes())?;
    }
    Ok(text)
}

#[test]
fn no_bytes(rt: HostRuntime) -> Result<(), Fail> {
    encodes(&rt, rt.alloc(), b"", 1, (82, 0xb5a9_0471))
}

#[test]
fn lines_between_places(rt: HostRuntime) -> Result<(), Fail> {
    let text = lines(rt.alloc(), 8000)?;
    encodes(&rt, rt.alloc(), &text, 1, (33507, 0xafe1_3575))?;
    encodes(&rt, rt.alloc(), &text, 14, (33507, 0xafe1_3575))?;
    encodes(&rt, rt.alloc(), &text, 1024, (33507, 0xe260_8c9b))
}

// Matches of the greatest length, which overlap what they make.
#[test]
fn the_same_again(rt: HostRuntime) -> Result<(), Fail> {
    let text = "0 16 l\n".repeat(rt.alloc(), 400)?;
    encodes(&rt, rt.alloc(), text.as_bytes(), 700, (119, 0x20d9_1967))
}

// Bytes without an order come again at each distance that a match can have at most, and one byte farther.
#[test]
fn the_farthest(rt: HostRuntime) -> Result<(), Fail> {
    for (gap, want) in [
        (32748usize, (441, 0x52ad_262c)),
        (32749, (473, 0x20d4_7b3c)),
        (40000, (544, 0xc417_2387)),
    ] {
        let mut text = noise(rt.alloc(), 20)?;
        text.resize(20 + gap, b'0')?;
        text.extend_from_slice(&noise(rt.alloc(), 20)?)?;
        encodes(&rt, rt.alloc(), &text, 1024, want)?;
    }
    Ok(())
}

#[test]
fn no_order(rt: HostRuntime) -> Result<(), Fail> {
    let text = noise(rt.alloc(), 10000)?;
    encodes(&rt, rt.alloc(), &text, 1000, (17879, 0x6d82_49bd))
}
