//! Long documents, and sinks that take little or fail.
ghost use Rattle.std.specs.Prelude.{◌≡◌, ◌-◌, ◌^◌, ◌<◌, Some};

use crate::pdf_documents::two_sheets;
use crate::pdf_strokes::{BLACK, write, write_titled};
use crate::pdf_texts::{TWO_PAGES, bytes_of, label, labels_of};
use crc32::crc_of;
use deflate::TextEncoder;
use devices::{Sink, SinkFault};
use labels::Label;
use plot_page::Stroke;
use std::alloc::Global;
use std::process::Abort;
use std::test::Fail;

// A sink that takes at most three bytes a call, and fails once, after `limit` bytes.
#[derive(Drop)]
struct Failing {
    bytes: Vec<u8>,
    limit: usize,
    failures: u64,
}

impl Sink for Failing {
    ghost state = { λ s. record { held = Some s.bytes.items; faults = s.failures } };

    fn put(&mut self, piece: &[u8]) -> Result<usize, SinkFault> {
        let fails = self.bytes.len() >= self.limit && self.failures == 0;
        let taken = piece.len().min(3);
        if fails || self.bytes.extend_from_slice(&piece[..taken]).is_err() {
            self.failures += 1;
            return Err(SinkFault);
        }
        Ok(taken)
    }

    fn failures(&self) -> u64 {
        self.failures
    }
}

// Fails unless sinks that fail once, after each `step`th number of bytes, have taken as many as the fault says, and nothing
// after it. The encoder begins anew after each.
fn fails_anywhere(
    rt: &impl Abort,
    alloc: Global,
    strokes: &[Stroke],
    ends: &[usize],
    labels: &[Label],
    whole: &[u8],
    step: usize,
) -> Result<(), Fail>
    requires { 0 < step }
{
    let mut encoder = TextEncoder::new(alloc)?;
    for limit in 0..=whole.len() {
        if limit % step != 0 {
            continue;
        }
        let mut sink = Failing {
            bytes: Vec::new(alloc),
            limit,
            failures: 0,
        };
        let bytes = write_titled(alloc, &mut encoder, "", strokes, ends, labels, 0, &mut sink)?;
        let failures = if sink.bytes.len() < whole.len() { 1 } else { 0 };
        assert_eq!(rt; (bytes, sink.failures), (sink.bytes.len() as u64, failures));
        assert!(rt; whole.starts_with(&sink.bytes));
    }
    Ok(())
}

#[test]
fn failing_once(rt: HostRuntime) -> Result<(), Fail> {
    let strokes = two_sheets(rt.alloc())?;
    let whole = bytes_of(&rt, rt.alloc(), &strokes, &[6, 8], &[], 0)?;
    fails_anywhere(&rt, rt.alloc(), &strokes, &[6, 8], &[], &whole, 1)
}

// A document with fonts and a text, of one page, so that it is short.
#[test]
fn failing_with_labels(rt: HostRuntime) -> Result<(), Fail> {
    let mut strokes = Vec::new(rt.alloc());
    strokes.push(BLACK.stroke([0, 448, 16_256, 448])?)?;
    let mut labels = Vec::new(rt.alloc());
    labels.push(label(rt.alloc(), [0, 1], &[65], [0, 448, 241, 448, 0, 500])?)?;
    let whole = bytes_of(&rt, rt.alloc(), &strokes, &[1], &labels, 0)?;
    fails_anywhere(&rt, rt.alloc(), &strokes, &[1], &labels, &whole, 1)
}

// Two pages, with a text on each.
#[test]
fn failing_on_two_pages_with_labels(rt: HostRuntime) -> Result<(), Fail> {
    let strokes = two_sheets(rt.alloc())?;
    let labels = labels_of(rt.alloc(), 0)?;
    let whole = bytes_of(&rt, rt.alloc(), &strokes, &[6, 8], &labels, 0)?;
    assert_eq!(&rt; (whole.len(), crc_of(&whole)), TWO_PAGES);
    fails_anywhere(&rt, rt.alloc(), &strokes, &[6, 8], &labels, &whole, 43)
}

// Where the sheets of a long document end.
const LONG_ENDS: [usize; 5] = [0, 3000, 2000, 4500, 9000];

// A place of its own for each number.
fn place(number: u16) -> (i32, i32) {
    let number = i32::from(number);
    (number * 7 % 16_000, number * 11 % 32_000)
}

// Strokes that follow one another.
fn long_strokes(alloc: Global) -> Result<Vec<Stroke>, Fail> {
    let mut strokes = Vec::new(alloc);
    let mut from = place(0);
    for number in 1..4_501u16 {
        let to = place(number);
        strokes.push(BLACK.stroke([from.0, from.1, to.0, to.1])?)?;
        from = to;
    }
    Ok(strokes)
}

// A path ends after 1,000 strokes, and the encoder is emptied many times. The writer in Python says how long this document
// is, and its CRC-32.
#[test]
fn many_strokes(rt: HostRuntime) -> Result<(), Fail> {
    let strokes = long_strokes(rt.alloc())?;
    let document = bytes_of(&rt, rt.alloc(), &strokes, &LONG_ENDS, &[], 0)?;
    assert_eq!(&rt; (document.len(), crc_of(&document)), (35_394, 0x5a97_752c));
    Ok(())
}

// A sink fails within the first 32,768 bytes, after them, and within the last four.
#[test]
fn failing_within_long_documents(rt: HostRuntime) -> Result<(), Fail> {
    let strokes = long_strokes(rt.alloc())?;
    let mut encoder = TextEncoder::new(rt.alloc())?;
    for limit in [30_000, 32_768, 35_390] {
        let mut sink = Failing {
            bytes: Vec::new(rt.alloc()),
            limit,
            failures: 0,
        };
        let bytes = write(rt.alloc(), &mut encoder, &strokes, &LONG_ENDS, &mut sink)?;
        assert_eq!(&rt; (bytes, sink.failures), (sink.bytes.len() as u64, 1));
        assert!(&rt; sink.bytes.len() >= limit && sink.bytes.len() < limit + 3);
    }
    Ok(())
}
