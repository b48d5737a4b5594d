//! All sheets of a plot in one document.
use crate::svg_documents::{FOOT, HEAD};
use crate::svg_strokes::{page, strokes_of, three_pens};
use areas::Areas;
use devices::{OverWrite, Sink};
use page_images::PageImages;
use plot_page::MOST_STROKES;
use std::alloc::Global;
use std::process::Abort;
use std::test::Fail;
use stroke_runs::SheetView;
use svg::{ClipPaths, write_svg_sheets};

// Fails unless these are the groups of the strokes of three pens, whose sheets end after so many of them.
fn has_groups(
    rt: &impl Abort,
    alloc: Global,
    strokes: &str,
    ends: &[usize],
    groups: &str,
) -> Result<(), Fail> {
    let strokes = strokes_of(alloc, strokes)?;
    if strokes.len() > MOST_STROKES {
        return Err("too many strokes".into());
    }
    let mut text = String::new(alloc);
    write!(text, "{HEAD}{groups}{FOOT}")?;
    let mut sink = OverWrite::new(Vec::new(alloc));
    let (page, pens) = (page()?, three_pens());
    let clips = ClipPaths::of(alloc, &page, &pens, &strokes)?;
    let view = SheetView {
        page: &page,
        pens: &pens,
        strokes: &strokes,
        areas: Areas::none(),
        labels: &[],
        before: 0,
        images: PageImages::none(),
    };
    let bytes = write_svg_sheets(&view, ends, &[], &clips, &mut sink)?;
    assert_eq!(rt; sink.failures(), 0);
    assert_eq!(rt;
        str::from_utf8(sink.into_inner().as_slice())?,
        text.as_str()
    );
    assert_eq!(rt; bytes, text.len() as u64);
    Ok(())
}

// Strokes that would be one path.
const STROKES: &str = "1 0 56 0 0 0 16 0\n1 0 56 0 16 0 32 0\n1 0 56 0 32 0 48 0\n";

#[test]
fn no_sheets(rt: HostRuntime) -> Result<(), Fail> {
    has_groups(&rt, rt.alloc(), "", &[], "")?;
    has_groups(&rt, rt.alloc(), "", &[0, 7], "")
}

#[test]
fn one_sheet(rt: HostRuntime) -> Result<(), Fail> {
    let group = "<g id=\"sheet-1\">\n\
<path class=\"pen1\" stroke=\"#000000\" stroke-width=\"56\" d=\"M0 1056l16 0l16 0l16 0\"/>\n\
</g>\n";
    has_groups(&rt, rt.alloc(), STROKES, &[], group)?;
    has_groups(&rt, rt.alloc(), STROKES, &[3], group)
}

// The end of the strokes ends a sheet, too; a path ends with its sheet.
#[test]
fn two_sheets(rt: HostRuntime) -> Result<(), Fail> {
    let groups = "<g id=\"sheet-1\">\n\
<path class=\"pen1\" stroke=\"#000000\" stroke-width=\"56\" d=\"M0 1056l16 0\"/>\n\
</g>\n<g id=\"sheet-2\">\n\
<path class=\"pen1\" stroke=\"#000000\" stroke-width=\"56\" d=\"M16 1056l16 0l16 0\"/>\n\
</g>\n";
    has_groups(&rt, rt.alloc(), STROKES, &[1], groups)?;
    has_groups(&rt, rt.alloc(), STROKES, &[1, 3], groups)?;
    has_groups(&rt, rt.alloc(), STROKES, &[0, 1, 1, 3, 9], groups)
}

// A sheet whose strokes are not drawn is a group without paths, and clip paths serve all sheets.
#[test]
fn sheets_not_drawn(rt: HostRuntime) -> Result<(), Fail> {
    let strokes = "3 0 56 2 0 0 0 0\n1 0 56 1 0 0 16 0\n1 0 56 1 0 0 16 0\n";
    let groups = "<defs>\n\
<clipPath id=\"w0_736_160_320\"><rect x=\"0\" y=\"736\" width=\"160\" height=\"320\"/></clipPath>\n\
</defs>\n\
<g id=\"sheet-1\">\n</g>\n\
<g id=\"sheet-2\">\n\
<path class=\"pen1\" stroke=\"#000000\" stroke-width=\"56\" clip-path=\"url(#w0_736_160_320)\" d=\"M0 1056l16 0\"/>\n\
</g>\n<g id=\"sheet-3\">\n\
<path class=\"pen1\" stroke=\"#000000\" stroke-width=\"56\" clip-path=\"url(#w0_736_160_320)\" d=\"M0 1056l16 0\"/>\n\
</g>\n";
    has_groups(&rt, rt.alloc(), strokes, &[1, 2], groups)
}
