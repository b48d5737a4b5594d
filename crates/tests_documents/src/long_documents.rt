//! Documents of several pieces, paths of many strokes, and sinks that take little or fail.
ghost use Rattle.std.specs.Prelude.{◌≡◌, ◌-◌, ◌^◌, ◌<◌, Some};

use crate::svg_documents::{FOOT, HEAD};
use crate::svg_strokes::{page, strokes_of, three_pens};
use areas::Areas;
use devices::{Sink, SinkFault};
use labels::Label;
use page_images::PageImages;
use plot_page::{Colour, MOST_STROKES, Stroke, Window};
use std::alloc::Global;
use std::process::Abort;
use std::test::Fail;
use stroke_runs::SheetView;
use svg::{ClipPaths, write_svg, write_svg_sheets};

// A sink that takes at most `step` bytes a call, and fails after `limit` bytes.
#[derive(Drop)]
struct Narrow {
    bytes: Vec<u8>,
    limit: usize,
    step: usize,
    failures: u64,
    puts: u64,
}

impl Sink for Narrow {
    ghost state = { λ s. record { held = Some s.bytes.items; faults = s.failures } };

    fn put(&mut self, piece: &[u8]) -> Result<usize, SinkFault> {
        self.puts = self.puts.wrapping_add(1);
        let left = self.limit.saturating_sub(self.bytes.len());
        let taken = piece.len().min(self.step).min(left);
        if taken == 0 && !piece.is_empty() {
            self.failures += 1;
            return Err(SinkFault);
        }
        match self.bytes.extend_from_slice(&piece[..taken]) {
            Ok(()) => Ok(taken),
            Err(_) => {
                self.failures += 1;
                Err(SinkFault)
            }
        }
    }

    fn failures(&self) -> u64 {
        self.failures
    }
}

impl Narrow {
    // One that takes at most `step` bytes a call, and fails after `limit`.
    fn new(alloc: Global, step: usize, limit: usize) -> Narrow
        ensures { result.failures ≡ 0 }
    {
        Narrow {
            bytes: Vec::new(alloc),
            limit,
            step,
            failures: 0,
            puts: 0,
        }
    }
}

// Writes the document of some strokes with their labels, by themselves or as sheets that end after so many of them, and
// returns how many bytes were written, whole or not.
fn bytes_written(
    alloc: Global,
    strokes: &[Stroke],
    ends: Option<&[usize]>,
    labels: &[Label],
    sink: &mut Narrow,
) -> Result<u64, Fail>
    requires { sink.old.failures ≡ 0 }
{
    if strokes.len() > MOST_STROKES {
        return Err("too many strokes".into());
    }
    let (page, pens) = (page()?, three_pens());
    let clips = ClipPaths::of(alloc, &page, &pens, strokes)?;
    let view = SheetView {
        page: &page,
        pens: &pens,
        strokes,
        areas: Areas::none(),
        labels,
        before: 0,
        images: PageImages::none(),
    };
    let written = match ends {
        Some(ends) => write_svg_sheets(&view, ends, &[], &clips, sink),
        None => write_svg(&view, &clips, sink),
    };
    match written {
        Ok(bytes) => Ok(bytes),
        Err(fault) => Ok(fault.bytes()),
    }
}

/// Fails unless a document is written up to `limit`, at most `step` bytes a call, and returns how many calls that took.
pub fn calls_of(
    rt: &impl Abort,
    alloc: Global,
    strokes: &[Stroke],
    ends: Option<&[usize]>,
    labels: &[Label],
    whole: &[u8],
    step: usize,
    limit: usize,
) -> Result<u64, Fail> {
    let mut sink = Narrow::new(alloc, step, limit);
    let bytes = bytes_written(alloc, strokes, ends, labels, &mut sink)?;
    let end = limit.min(whole.len());
    let failures = if end < whole.len() { 1 } else { 0 };
    assert_eq!(rt; (bytes, sink.failures), (end as u64, failures));
    assert!(rt; Some(sink.bytes.as_slice()) == whole.get(..end));
    Ok(sink.puts)
}

// Many strokes of one pen, each where the last one ended, and their document: a path ends after 1,000 strokes.
fn long(alloc: Global) -> Result<(Vec<Stroke>, String), Fail> {
    let mut lines = String::new(alloc);
    let mut text = String::new(alloc);
    text.push_str(HEAD)?;
    for number in 0..9_000u32 {
        let next = number + 1;
        write!(lines, "2 0 56 0 {number} 1000 {next} 1000\n")?;
        if number % 1000 == 0 {
            let end = if number == 0 { "" } else { "\"/>\n" };
            write!(
                text,
                "{end}<path class=\"pen2\" stroke=\"#000000\" stroke-width=\"56\" d=\"M{number} 56"
            )?;
        }
        text.push_str("l1 0")?;
    }
    text.push_str("\"/>\n")?;
    text.push_str(FOOT)?;
    Ok((strokes_of(alloc, lines.as_str())?, text))
}

// No byte is lost where two pieces meet, and few calls are made.
#[test]
fn more_than_a_piece(rt: HostRuntime) -> Result<(), Fail> {
    let (strokes, text) = long(rt.alloc())?;
    let whole = text.as_str().as_bytes();
    let calls = calls_of(
        &rt,
        rt.alloc(),
        &strokes,
        None,
        &[],
        whole,
        usize::MAX,
        usize::MAX,
    )?;
    assert_eq!(&rt; calls, 2);
    Ok(())
}

#[test]
fn failing_within_later_pieces(rt: HostRuntime) -> Result<(), Fail> {
    let (strokes, text) = long(rt.alloc())?;
    let whole = text.as_str().as_bytes();
    for limit in [32_000, 32_768, 33_000, 36_000] {
        calls_of(&rt, rt.alloc(), &strokes, None, &[], whole, 1000, limit)?;
    }
    Ok(())
}

// A sink that takes a byte at a time, and fails after each number of bytes.
#[test]
fn failing_sinks(rt: HostRuntime) -> Result<(), Fail> {
    let strokes = strokes_of(rt.alloc(), "1 0 56 1 0 0 16 0\n2 0 56 0 16 0 0 0\n")?;
    let mut text = String::new(rt.alloc());
    text.push_str(HEAD)?;
    text.push_str(
        "<defs>\n\
<clipPath id=\"w0_736_160_320\"><rect x=\"0\" y=\"736\" width=\"160\" height=\"320\"/></clipPath>\n\
</defs>\n\
<path class=\"pen1\" stroke=\"#000000\" stroke-width=\"56\" clip-path=\"url(#w0_736_160_320)\" d=\"M0 1056l16 0\"/>\n\
<path class=\"pen2\" stroke=\"#000000\" stroke-width=\"56\" d=\"M16 1056l-16 0\"/>\n",
    )?;
    text.push_str(FOOT)?;
    let whole = text.as_str().as_bytes();
    for limit in 0..=whole.len() {
        calls_of(&rt, rt.alloc(), &strokes, None, &[], whole, 1, limit)?;
    }
    Ok(())
}

// As many sheets of one stroke each, and their document: a path ends with its sheet.
fn many_sheets(alloc: Global, count: usize) -> Result<(Vec<Stroke>, Vec<usize>, String), Fail> {
    let mut lines = String::new(alloc);
    let mut ends = Vec::new(alloc);
    let mut text = String::new(alloc);
    text.push_str(HEAD)?;
    for before in 0..count {
        let number = before + 1;
        lines.push_str("1 0 56 0 0 0 0 0\n")?;
        ends.push(number)?;
        write!(
            text,
            "<g id=\"sheet-{number}\">\n\
<path class=\"pen1\" stroke=\"#000000\" stroke-width=\"56\" d=\"M0 1056l0 0\"/>\n</g>\n"
        )?;
    }
    text.push_str(FOOT)?;
    Ok((strokes_of(alloc, lines.as_str())?, ends, text))
}

#[test]
fn failing_sheets(rt: HostRuntime) -> Result<(), Fail> {
    let (strokes, ends, text) = many_sheets(rt.alloc(), 2)?;
    let whole = text.as_str().as_bytes();
    for limit in 0..=whole.len() {
        calls_of(&rt, rt.alloc(), &strokes, Some(&ends), &[], whole, 1, limit)?;
    }
    Ok(())
}

// No byte is lost where two pieces meet between sheets.
#[test]
fn more_sheets_than_a_piece(rt: HostRuntime) -> Result<(), Fail> {
    let (strokes, ends, text) = many_sheets(rt.alloc(), 700)?;
    let whole = text.as_str().as_bytes();
    let calls = calls_of(
        &rt,
        rt.alloc(),
        &strokes,
        Some(&ends),
        &[],
        whole,
        usize::MAX,
        usize::MAX,
    )?;
    assert_eq!(&rt; calls, 3);
    calls_of(
        &rt,
        rt.alloc(),
        &strokes,
        Some(&ends),
        &[],
        whole,
        1000,
        40_000,
    )?;
    Ok(())
}

// Windows of as many strokes, each one grain further right, and their document.
fn many_windows(alloc: Global, count: i32) -> Result<(Vec<Stroke>, String), Fail> {
    let mut strokes = Vec::new(alloc);
    let mut text = String::new(alloc);
    let mut paths = String::new(alloc);
    write!(text, "{HEAD}<defs>\n")?;
    for x in 0..count {
        strokes.push(narrow_stroke(x)?)?;
        write!(
            text,
            "<clipPath id=\"w{x}_1056_1_0\"><rect x=\"{x}\" y=\"1056\" width=\"1\" height=\"0\"/></clipPath>\n"
        )?;
        write!(
            paths,
            "<path class=\"pen2\" stroke=\"#000000\" stroke-width=\"56\" \
clip-path=\"url(#w{x}_1056_1_0)\" d=\"M0 1056l0 0\"/>\n"
        )?;
    }
    write!(text, "</defs>\n{paths}{FOOT}")?;
    Ok((strokes, text))
}

fn narrow_stroke(x: i32) -> Result<Stroke, Fail> {
    let colour = Colour {
        red: 0,
        green: 0,
        blue: 0,
    };
    let window = Window {
        x0: x,
        y0: 0,
        x1: x.saturating_add(1),
        y1: 0,
    };
    Ok(Stroke::new(2, colour, 56, window, 0, 0, 0, 0).ok_or("no stroke")?)
}

// More clip paths than a piece takes.
#[test]
fn many_clip_paths(rt: HostRuntime) -> Result<(), Fail> {
    let (strokes, text) = many_windows(rt.alloc(), 400)?;
    let whole = text.as_str().as_bytes();
    let calls = calls_of(
        &rt,
        rt.alloc(),
        &strokes,
        None,
        &[],
        whole,
        usize::MAX,
        usize::MAX,
    )?;
    assert_eq!(&rt; calls, 3);
    for limit in [20_000, 32_768, 34_000] {
        calls_of(&rt, rt.alloc(), &strokes, None, &[], whole, 1000, limit)?;
    }
    Ok(())
}
