//! Texts of labels, by the length and the CRC-32 of documents that a writer in Python has checked.
ghost use Rattle.std.specs.Prelude.{◌≤◌, nat_abs};

use crate::pdf_documents::two_sheets;
use crate::pdf_strokes::{BLACK, write_titled};
use crc32::crc_of;
use deflate::TextEncoder;
use devices::{OverWrite, Sink};
use labels::{Label, Line, Place};
use plot_page::Stroke;
use std::alloc::Global;
use std::process::Abort;
use std::test::Fail;

// A line from one place to another, with a corner above the first one.
fn line(alloc: Global, text: &[u32], places: [i32; 6]) -> Result<Line, Fail> {
    let [ax, ay, bx, by, x, y] = places;
    let mut line = Line::new(alloc, near(ax, ay), near(x, y));
    for point in text {
        line.push(*point, near(bx, by))?;
    }
    Ok(line)
}

// A place where strokes may end.
fn near(x: i32, y: i32) -> Place
    ensures x { nat_abs result.x ≤ 1048576 }
    ensures y { nat_abs result.y ≤ 1048576 }
{
    Place {
        x: x.clamp(-1_048_576, 1_048_576),
        y: y.clamp(-1_048_576, 1_048_576),
    }
}

/// A label of one line.
pub fn label(
    alloc: Global,
    strokes: [usize; 2],
    text: &[u32],
    places: [i32; 6],
) -> Result<Label, Fail> {
    let mut lines = Vec::new(alloc);
    lines.push(line(alloc, text, places)?)?;
    let [first, after] = strokes;
    Ok(Label {
        first,
        after,
        lines,
    })
}

/// The bytes of a document with labels that count strokes from `before` strokes before these.
pub fn bytes_of(
    rt: &impl Abort,
    alloc: Global,
    strokes: &[Stroke],
    ends: &[usize],
    labels: &[Label],
    before: usize,
) -> Result<Vec<u8>, Fail> {
    let mut sink = OverWrite::new(Vec::new(alloc));
    let mut encoder = TextEncoder::new(alloc)?;
    let bytes = write_titled(
        alloc,
        &mut encoder,
        "",
        strokes,
        ends,
        labels,
        before,
        &mut sink,
    )?;
    assert_eq!(rt; sink.failures(), 0);
    let document = sink.into_inner();
    assert_eq!(rt; bytes, document.len() as u64);
    Ok(document)
}

// Labels of the two sheets, as if `before` strokes came before these: of two lines, of two rows of code points and of a code
// point over U+FFFF, without a letter, of strokes that are not drawn, upright and mirrored, and of the second sheet.
pub fn labels_of(alloc: Global, before: usize) -> Result<Vec<Label>, Fail>
    requires { before ≤ 1000 }
{
    let mut labels = Vec::new(alloc);
    let ab = [65, 66];
    let mut first = label(alloc, [before, before + 2], &ab, [0, 448, 241, 448, 0, 500])?;
    let mixed = [0x3b1, 0x3b2, 67, 0x1_f604, 0xffff];
    first
        .lines
        .push(line(alloc, &mixed, [16, -20, -1000, 10, 17, -109])?)?;
    labels.push(first)?;
    let unselected = [before + 2, before + 3];
    labels.push(label(alloc, unselected, &[0x400], [0, 0, 10, 0, 0, 10])?)?;
    labels.push(label(alloc, [before + 3, before + 4], &[], [0, 0, 0, 0, 0, 10])?)?;
    labels.push(label(
        alloc,
        [before + 3, before + 3],
        &[0x500],
        [0, 0, 1, 0, 0, 1],
    )?)?;
    let upright = [before + 4, before + 6];
    labels.push(label(
        alloc,
        upright,
        &[233, 32, 0x7d],
        [8000, 9000, 8000, 9002, 7990, 9000],
    )?)?;
    let second = [before + 6, before + 7];
    labels.push(label(alloc, second, &[0x30a2], [100, 100, 100, 100, 100, 100])?)?;
    Ok(labels)
}

#[test]
fn two_pages(rt: HostRuntime) -> Result<(), Fail> {
    let strokes = two_sheets(rt.alloc())?;
    let labels = labels_of(rt.alloc(), 0)?;
    let document = bytes_of(&rt, rt.alloc(), &strokes, &[6, 8], &labels, 0)?;
    assert_eq!(&rt; (document.len(), crc_of(&document)), TWO_PAGES);
    Ok(())
}

// The same if other strokes come before these.
#[test]
fn later_strokes(rt: HostRuntime) -> Result<(), Fail> {
    let strokes = two_sheets(rt.alloc())?;
    let labels = labels_of(rt.alloc(), 1000)?;
    let document = bytes_of(&rt, rt.alloc(), &strokes, &[6, 8], &labels, 1000)?;
    assert_eq!(&rt; (document.len(), crc_of(&document)), TWO_PAGES);
    Ok(())
}

// The length and the CRC-32 of the two sheets with these labels.
pub const TWO_PAGES: (usize, u32) = (4286, 0xc94a_dfbd);

// A document whose labels are not shown is one without labels.
#[test]
fn nothing_shown(rt: HostRuntime) -> Result<(), Fail> {
    let strokes = two_sheets(rt.alloc())?;
    let mut labels = Vec::new(rt.alloc());
    labels.push(label(rt.alloc(), [2, 3], &[65], [0, 0, 10, 0, 0, 10])?)?;
    labels.push(label(rt.alloc(), [5, 4], &[66], [0, 0, 10, 0, 0, 10])?)?;
    labels.push(label(rt.alloc(), [7, 7], &[67], [0, 0, 10, 0, 0, 10])?)?;
    labels.push(label(rt.alloc(), [8, usize::MAX], &[68], [0, 0, 10, 0, 0, 10])?)?;
    let document = bytes_of(&rt, rt.alloc(), &strokes, &[6, 8], &labels, 0)?;
    assert_eq!(&rt; (document.len(), crc_of(&document)), (1499, 0x1ff8_a361));
    Ok(())
}

// Labels with the greatest numbers: places as far away as they can be, strokes up to the last number that there is, more
// strokes before these than there are, and ends in no order.
#[test]
fn far_away(rt: HostRuntime) -> Result<(), Fail> {
    let strokes = two_sheets(rt.alloc())?;
    let far = 1_048_576;
    let mut labels = Vec::new(rt.alloc());
    labels.push(label(
        rt.alloc(),
        [0, usize::MAX],
        &[65],
        [-far, far, far, -far, far, far],
    )?)?;
    labels.push(label(
        rt.alloc(),
        [7, usize::MAX],
        &[66, 67],
        [far, -far, -far, far, -far, -far],
    )?)?;
    let document = bytes_of(&rt, rt.alloc(), &strokes, &[usize::MAX, 0, 9], &labels, 0)?;
    assert_eq!(&rt; (document.len(), crc_of(&document)), FAR_AWAY);
    let document = bytes_of(&rt, rt.alloc(), &strokes, &[6, 8], &labels, usize::MAX)?;
    assert_eq!(&rt; (document.len(), crc_of(&document)), (1499, 0x1ff8_a361));
    Ok(())
}

const FAR_AWAY: (usize, u32) = (3082, 0xaa70_c087);

// A line of 8,000 letters in 256 rows, by which the encoder is emptied many times.
#[test]
fn long_line(rt: HostRuntime) -> Result<(), Fail> {
    let mut text = Vec::new(rt.alloc());
    for number in 0..8_000u32 {
        text.push(number * 7919 % 65_536)?;
    }
    let mut strokes = Vec::new(rt.alloc());
    strokes.push(BLACK.stroke([0, 0, 16_000, 0])?)?;
    let mut labels = Vec::new(rt.alloc());
    labels.push(label(rt.alloc(), [0, 1], &text, [0, 0, 16_000, 3, 1, 40])?)?;
    let document = bytes_of(&rt, rt.alloc(), &strokes, &[1], &labels, 0)?;
    assert_eq!(&rt; (document.len(), crc_of(&document)), LONG_LINE);
    Ok(())
}

const LONG_LINE: (usize, u32) = (172_050, 0x74ae_e98d);
