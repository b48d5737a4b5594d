//! The titles of labels, of any code points and of any length.
use crate::long_documents::calls_of;
use crate::svg_documents::{FOOT, HEAD};
use crate::svg_strokes::strokes_of;
use crate::written::{label_of, label_with};
use labels::Label;
use plot_page::Stroke;
use std::alloc::Global;
use std::process::Abort;
use std::test::Fail;

// A stroke, and its path.
const STROKE: &str = "1 0 56 0 0 0 0 0\n";

const PATH: &str =
    "<path class=\"pen1\" stroke=\"#000000\" stroke-width=\"56\" d=\"M0 1056l0 0\"/>\n";

// Fails unless this is the title of a label.
fn has_title(rt: &impl Abort, alloc: Global, label: Label, title: &[u8]) -> Result<(), Fail> {
    let strokes = strokes_of(alloc, STROKE)?;
    let mut labels = Vec::new(alloc);
    labels.push(label)?;
    let mut whole = Vec::new(alloc);
    whole.extend_from_slice(HEAD.as_bytes())?;
    whole.extend_from_slice(b"<g><title>")?;
    whole.extend_from_slice(title)?;
    whole.extend_from_slice(b"</title>\n")?;
    whole.extend_from_slice(PATH.as_bytes())?;
    whole.extend_from_slice(b"</g>\n")?;
    whole.extend_from_slice(FOOT.as_bytes())?;
    calls_of(
        rt,
        alloc,
        &strokes,
        None,
        &labels,
        &whole,
        usize::MAX,
        usize::MAX,
    )?;
    Ok(())
}

// Fails unless this is the title of a text.
fn has_text(rt: &impl Abort, alloc: Global, text: &str, title: &str) -> Result<(), Fail> {
    has_title(rt, alloc, label_of(alloc, 0, 1, text)?, title.as_bytes())
}

#[test]
fn references(rt: HostRuntime) -> Result<(), Fail> {
    has_text(&rt, rt.alloc(), "A&B", "A&amp;B")?;
    has_text(
        &rt,
        rt.alloc(),
        "</title><script>&amp;",
        "&lt;/title&gt;&lt;script&gt;&amp;amp;",
    )?;
    has_text(&rt, rt.alloc(), "<![CDATA[]]>", "&lt;![CDATA[]]&gt;")?;
    has_text(&rt, rt.alloc(), "<!--\"'-->", "&lt;!--\"'--&gt;")
}

// Lines are separated by a line feed, also empty ones; a label without lines has an empty title.
#[test]
fn lines(rt: HostRuntime) -> Result<(), Fail> {
    has_text(&rt, rt.alloc(), "A\nB&\n\nC", "A\nB&amp;\n\nC")?;
    has_text(&rt, rt.alloc(), "\nA", "\nA")?;
    has_text(&rt, rt.alloc(), "", "")
}

#[test]
fn utf_8(rt: HostRuntime) -> Result<(), Fail> {
    let text = "\u{7f}\u{80}\u{7ff}\u{800}\u{d7ff}\u{e000}\u{fffd}\u{10000}\u{10ffff}";
    has_text(&rt, rt.alloc(), text, text)?;
    let label = label_with(rt.alloc(), 0, 1, &[0xE9, 0x20AC, 0x1_F600])?;
    has_title(
        &rt,
        rt.alloc(),
        label,
        b"\xC3\xA9\xE2\x82\xAC\xF0\x9F\x98\x80",
    )
}

// What XML does not have, a tab and a carriage return are U+FFFD.
#[test]
fn replaced(rt: HostRuntime) -> Result<(), Fail> {
    let hostile = [
        0,
        1,
        8,
        9,
        11,
        13,
        27,
        31,
        0xD800,
        0xDBFF,
        0xDC00,
        0xDFFF,
        0xFFFE,
        0xFFFF,
        0x11_0000,
        u32::MAX,
    ];
    for code_point in hostile {
        let label = label_with(rt.alloc(), 0, 1, &[65, code_point, 66])?;
        has_title(&rt, rt.alloc(), label, b"A\xEF\xBF\xBDB")?;
    }
    Ok(())
}

// A title of many references, and its document.
fn long(alloc: Global, count: usize) -> Result<(Vec<Stroke>, Vec<Label>, String), Fail> {
    let mut letters = Vec::new(alloc);
    let mut text = String::new(alloc);
    write!(text, "{HEAD}<g><title>")?;
    for _ in 0..count {
        letters.push(38)?;
        text.push_str("&amp;")?;
    }
    write!(text, "</title>\n{PATH}</g>\n{FOOT}")?;
    let mut labels = Vec::new(alloc);
    labels.push(label_with(alloc, 0, 1, &letters)?)?;
    Ok((strokes_of(alloc, STROKE)?, labels, text))
}

// No byte is lost where two pieces meet within a title, wherever that is in a reference.
#[test]
fn longer_than_a_piece(rt: HostRuntime) -> Result<(), Fail> {
    let (strokes, labels, text) = long(rt.alloc(), 20_000)?;
    let whole = text.as_str().as_bytes();
    let calls = calls_of(
        &rt,
        rt.alloc(),
        &strokes,
        None,
        &labels,
        whole,
        usize::MAX,
        usize::MAX,
    )?;
    assert_eq!(&rt; calls, 4);
    for limit in [32_760, 32_768, 33_000, 65_536, 99_999] {
        calls_of(&rt, rt.alloc(), &strokes, None, &labels, whole, 1000, limit)?;
    }
    Ok(())
}

#[test]
fn failing_titles(rt: HostRuntime) -> Result<(), Fail> {
    let (strokes, labels, text) = long(rt.alloc(), 3)?;
    let whole = text.as_str().as_bytes();
    for limit in 0..=whole.len() {
        calls_of(&rt, rt.alloc(), &strokes, None, &labels, whole, 1, limit)?;
    }
    Ok(())
}
