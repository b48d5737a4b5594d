//! The groups of labels.
use crate::long_documents::calls_of;
use crate::svg_documents::{FOOT, HEAD};
use crate::svg_strokes::{page, strokes_of, three_pens};
use crate::written::label_of;
use areas::Areas;
use devices::{OverWrite, Sink};
use labels::Label;
use page_images::PageImages;
use plot_page::{MOST_STROKES, Stroke};
use std::alloc::Global;
use std::process::Abort;
use std::test::Fail;
use stroke_runs::SheetView;
use svg::{ClipPaths, write_svg, write_svg_sheets};

// Four strokes that would be one path.
const STROKES: &str =
    "1 0 56 0 0 0 16 0\n1 0 56 0 16 0 32 0\n1 0 56 0 32 0 48 0\n1 0 56 0 48 0 64 0\n";

/// Labels, each of a line: the number of the strokes before it and after it, and its text.
pub fn labels_of(alloc: Global, labels: &[(usize, usize, &str)]) -> Result<Vec<Label>, Fail> {
    let mut made = Vec::new(alloc);
    for (first, after, text) in labels {
        made.push(label_of(alloc, *first, *after, text)?)?;
    }
    Ok(made)
}

// The document of strokes with labels that are counted from so many strokes before them, as one sheet, or as sheets that end
// after so many strokes.
fn document(
    alloc: Global,
    strokes: &[Stroke],
    ends: Option<&[usize]>,
    labels: &[Label],
    before: usize,
) -> Result<Vec<u8>, Fail> {
    if strokes.len() > MOST_STROKES {
        return Err("too many strokes".into());
    }
    let mut sink = OverWrite::new(Vec::new(alloc));
    let (page, pens) = (page()?, three_pens());
    let clips = ClipPaths::of(alloc, &page, &pens, strokes)?;
    let view = SheetView {
        page: &page,
        pens: &pens,
        strokes,
        areas: Areas::none(),
        labels,
        before,
        images: PageImages::none(),
    };
    match ends {
        Some(ends) => write_svg_sheets(&view, ends, &[], &clips, &mut sink)?,
        None => write_svg(&view, &clips, &mut sink)?,
    };
    Ok(sink.into_inner())
}

// Fails unless these are the parts of four strokes with labels.
fn has_parts(
    rt: &impl Abort,
    alloc: Global,
    strokes: &str,
    labels: &[(usize, usize, &str)],
    before: usize,
    parts: &str,
) -> Result<(), Fail> {
    let strokes = strokes_of(alloc, strokes)?;
    let labels = labels_of(alloc, labels)?;
    let mut text = String::new(alloc);
    write!(text, "{HEAD}{parts}{FOOT}")?;
    let bytes = document(alloc, &strokes, None, &labels, before)?;
    assert_eq!(rt; str::from_utf8(bytes.as_slice())?, text.as_str());
    Ok(())
}

const FIRST: &str =
    "<path class=\"pen1\" stroke=\"#000000\" stroke-width=\"56\" d=\"M0 1056l16 0\"/>\n";

const SECOND: &str =
    "<path class=\"pen1\" stroke=\"#000000\" stroke-width=\"56\" d=\"M16 1056l16 0\"/>\n";

const MIDDLE: &str =
    "<path class=\"pen1\" stroke=\"#000000\" stroke-width=\"56\" d=\"M16 1056l16 0l16 0\"/>\n";

const THIRD: &str =
    "<path class=\"pen1\" stroke=\"#000000\" stroke-width=\"56\" d=\"M32 1056l16 0\"/>\n";

const LAST: &str =
    "<path class=\"pen1\" stroke=\"#000000\" stroke-width=\"56\" d=\"M48 1056l16 0\"/>\n";

// A path ends where a label begins, and where it ends.
#[test]
fn between_strokes(rt: HostRuntime) -> Result<(), Fail> {
    let alloc = rt.alloc();
    let mut parts = String::new(alloc);
    write!(parts, "{FIRST}<g><title>A\nB</title>\n{MIDDLE}</g>\n{LAST}")?;
    has_parts(&rt, alloc, STROKES, &[(1, 3, "A\nB")], 0, parts.as_str())
}

#[test]
fn one_after_another(rt: HostRuntime) -> Result<(), Fail> {
    let alloc = rt.alloc();
    let labels = [(0, 1, "A"), (1, 2, "B"), (3, 4, "C")];
    let mut parts = String::new(alloc);
    write!(
        parts,
        "<g><title>A</title>\n{FIRST}</g>\n<g><title>B</title>\n{SECOND}</g>\n{THIRD}<g><title>C</title>\n{LAST}</g>\n"
    )?;
    has_parts(&rt, alloc, STROKES, &labels, 0, parts.as_str())
}

// A label without strokes, with strokes that are not drawn, after all strokes, and one that ends before it begins.
#[test]
fn not_drawn(rt: HostRuntime) -> Result<(), Fail> {
    let alloc = rt.alloc();
    let strokes = "1 0 56 0 0 0 16 0\n3 0 56 0 16 0 32 0\n1 0 56 4 16 0 32 0\n";
    let labels = [
        (0, 0, "A"),
        (1, 2, "B"),
        (2, 3, "C"),
        (3, 2, "D"),
        (7, 9, "E"),
    ];
    has_parts(&rt, alloc, strokes, &labels, 0, FIRST)?;
    has_parts(&rt, alloc, "", &labels, 0, "")
}

// Each stroke is written once: if two labels have it, with the first one.
#[test]
fn overlapping(rt: HostRuntime) -> Result<(), Fail> {
    let alloc = rt.alloc();
    let labels = [(0, 2, "A"), (1, 3, "B"), (0, 3, "C"), (2, 9, "D")];
    let mut parts = String::new(alloc);
    write!(
        parts,
        "<g><title>A</title>\n\
<path class=\"pen1\" stroke=\"#000000\" stroke-width=\"56\" d=\"M0 1056l16 0l16 0\"/>\n</g>\n\
<g><title>B</title>\n{THIRD}</g>\n<g><title>D</title>\n{LAST}</g>\n"
    )?;
    has_parts(&rt, alloc, STROKES, &labels, 0, parts.as_str())?;
    let backward = [(2, 3, "A"), (0, 1, "B"), (1, 4, "C")];
    let mut parts = String::new(alloc);
    write!(
        parts,
        "<path class=\"pen1\" stroke=\"#000000\" stroke-width=\"56\" d=\"M0 1056l16 0l16 0\"/>\n\
<g><title>A</title>\n{THIRD}</g>\n<g><title>C</title>\n{LAST}</g>\n"
    )?;
    has_parts(&rt, alloc, STROKES, &backward, 0, parts.as_str())
}

// Labels are counted from strokes that come before these; of one that has some of them, the others are left.
#[test]
fn counted_before(rt: HostRuntime) -> Result<(), Fail> {
    let alloc = rt.alloc();
    let labels = [(2, 4, "A"), (5, 8, "B"), (8, 9, "C"), (10, 11, "D")];
    let mut parts = String::new(alloc);
    write!(
        parts,
        "<g><title>B</title>\n{FIRST}</g>\n<g><title>C</title>\n{SECOND}</g>\n{THIRD}<g><title>D</title>\n{LAST}</g>\n"
    )?;
    has_parts(&rt, alloc, STROKES, &labels, 7, parts.as_str())?;
    let far = [(usize::MAX - 3, usize::MAX - 2, "A")];
    let mut parts = String::new(alloc);
    write!(parts, "{FIRST}<g><title>A</title>\n{SECOND}</g>\n")?;
    let two = "1 0 56 0 0 0 16 0\n1 0 56 0 16 0 32 0\n";
    has_parts(&rt, alloc, two, &far, usize::MAX - 4, parts.as_str())
}

// Four strokes on two sheets, and labels on both, of which one is cut where its sheet ends; and their document.
fn two_sheets(alloc: Global) -> Result<(Vec<Stroke>, Vec<Label>, String), Fail> {
    let labels = [
        (0, 1, "A"),
        (1, 3, "B"),
        (2, 3, "C"),
        (3, 4, "D"),
        (4, 9, "E"),
    ];
    let mut text = String::new(alloc);
    write!(
        text,
        "{HEAD}<g id=\"sheet-1\">\n<g><title>A</title>\n{FIRST}</g>\n<g><title>B</title>\n{SECOND}</g>\n</g>\n\
<g id=\"sheet-2\">\n<g><title>C</title>\n{THIRD}</g>\n<g><title>D</title>\n{LAST}</g>\n</g>\n{FOOT}"
    )?;
    Ok((
        strokes_of(alloc, STROKES)?,
        labels_of(alloc, &labels)?,
        text,
    ))
}

// A label is on the sheet of its first stroke.
#[test]
fn on_sheets(rt: HostRuntime) -> Result<(), Fail> {
    let (strokes, labels, text) = two_sheets(rt.alloc())?;
    for ends in [[2, 2], [2, 4], [2, usize::MAX]] {
        let bytes = document(rt.alloc(), &strokes, Some(&ends), &labels, 0)?;
        assert_eq!(&rt; str::from_utf8(bytes.as_slice())?, text.as_str());
    }
    Ok(())
}

// Three strokes come before these.
#[test]
fn on_sheets_after_others(rt: HostRuntime) -> Result<(), Fail> {
    let alloc = rt.alloc();
    let (strokes, _, text) = two_sheets(alloc)?;
    let labels = labels_of(
        alloc,
        &[
            (0, 3, "Z"),
            (3, 4, "A"),
            (4, 6, "B"),
            (5, 6, "C"),
            (6, 7, "D"),
        ],
    )?;
    let bytes = document(alloc, &strokes, Some(&[2]), &labels, 3)?;
    assert_eq!(&rt; str::from_utf8(bytes.as_slice())?, text.as_str());
    Ok(())
}

// A sink that takes a byte at a time, and fails after each number of bytes.
#[test]
fn failing_groups(rt: HostRuntime) -> Result<(), Fail> {
    let (strokes, labels, text) = two_sheets(rt.alloc())?;
    let whole = text.as_str().as_bytes();
    for limit in 0..=whole.len() {
        calls_of(
            &rt,
            rt.alloc(),
            &strokes,
            Some(&[2]),
            &labels,
            whole,
            1,
            limit,
        )?;
    }
    Ok(())
}

// As many labels of one stroke each, and their document.
fn many(alloc: Global, count: usize) -> Result<(Vec<Stroke>, Vec<Label>, String), Fail> {
    let mut lines = String::new(alloc);
    let mut labels = Vec::new(alloc);
    let mut text = String::new(alloc);
    text.push_str(HEAD)?;
    for number in 0..count {
        lines.push_str("1 0 56 0 0 0 16 0\n")?;
        labels.push(label_of(alloc, number, number + 1, "A\n&")?)?;
        write!(text, "<g><title>A\n&amp;</title>\n{FIRST}</g>\n")?;
    }
    text.push_str(FOOT)?;
    Ok((strokes_of(alloc, lines.as_str())?, labels, text))
}

// No byte is lost where two pieces meet, wherever in a group that is.
#[test]
fn more_groups_than_a_piece(rt: HostRuntime) -> Result<(), Fail> {
    let (strokes, labels, text) = many(rt.alloc(), 700)?;
    let whole = text.as_str().as_bytes();
    let calls = calls_of(
        &rt,
        rt.alloc(),
        &strokes,
        None,
        &labels,
        whole,
        usize::MAX,
        usize::MAX,
    )?;
    assert_eq!(&rt; calls, 3);
    calls_of(
        &rt,
        rt.alloc(),
        &strokes,
        None,
        &labels,
        whole,
        1000,
        40_000,
    )?;
    Ok(())
}
