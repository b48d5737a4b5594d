//! Areas in SVG documents, byte by byte.
use crate::groups::labels_of;
use crate::svg_documents::{FOOT, HEAD};
use crate::svg_strokes::{page, strokes_of, three_pens};
use areas::{Area, Areas};
use devices::{OverWrite, Sink};
use page_images::PageImages;
use plot_page::MOST_STROKES;
use polygons::Rule;
use std::alloc::Global;
use std::process::Abort;
use std::test::Fail;
use stroke_runs::SheetView;
use svg::{ClipPaths, write_svg, write_svg_sheets};

// Fails unless these are the paths of strokes of three pens, among which there are areas, with labels, on sheets if there are ends.
fn draws(
    rt: &impl Abort,
    alloc: Global,
    strokes: &str,
    areas: Areas<'_>,
    labels: &[(usize, usize, &str)],
    ends: Option<&[usize]>,
    paths: &str,
) -> Result<(), Fail> {
    let strokes = strokes_of(alloc, strokes)?;
    if strokes.len() > MOST_STROKES {
        return Err("too many strokes".into());
    }
    let labels = labels_of(alloc, labels)?;
    let mut text = String::new(alloc);
    write!(text, "{HEAD}{paths}{FOOT}")?;
    let mut sink = OverWrite::new(Vec::new(alloc));
    let (page, pens) = (page()?, three_pens());
    let clips = ClipPaths::of(alloc, &page, &pens, &strokes)?;
    let view = SheetView {
        page: &page,
        pens: &pens,
        strokes: &strokes,
        areas,
        labels: &labels,
        before: 0,
        images: PageImages::none(),
    };
    let bytes = match ends {
        Some(ends) => write_svg_sheets(&view, ends, &[], &clips, &mut sink)?,
        None => write_svg(&view, &clips, &mut sink)?,
    };
    assert_eq!(rt;
        str::from_utf8(sink.into_inner().as_slice())?,
        text.as_str()
    );
    assert_eq!(rt; bytes, text.len() as u64);
    Ok(())
}

// A square with a square hole.
const WITH_A_HOLE: &str = "\
1 1 0 0 0 0 128 0
1 1 0 0 128 0 128 128
1 1 0 0 128 128 0 128
1 1 0 0 0 128 0 0
1 1 0 0 32 32 96 32
1 1 0 0 96 32 96 96
1 1 0 0 96 96 32 96
1 1 0 0 32 96 32 32
";

// All edges are one path: each polygon is a chain.
#[test]
fn with_a_hole(rt: HostRuntime) -> Result<(), Fail> {
    let list = [Area {
        first: 0,
        end: 8,
        rule: Rule::OddCounts,
    }];
    let path =
        "<path class=\"pen1\" stroke=\"#01abfe\" stroke-width=\"24\" fill=\"#01abfe\" fill-rule=\"evenodd\" \
        d=\"M0 1056l128 0l0 -128L0 928l0 128m32 -32l64 0l0 -64l-64 0l0 64\"/>\n";
    draws(
        &rt,
        rt.alloc(),
        WITH_A_HOLE,
        Areas::all(&list),
        &[],
        None,
        path,
    )
}

#[test]
fn by_winding(rt: HostRuntime) -> Result<(), Fail> {
    let list = [Area {
        first: 0,
        end: 8,
        rule: Rule::Winding,
    }];
    let path = "<path class=\"pen1\" stroke=\"#01abfe\" stroke-width=\"24\" fill=\"#01abfe\" \
        d=\"M0 1056l128 0l0 -128L0 928l0 128m32 -32l64 0l0 -64l-64 0l0 64\"/>\n";
    draws(
        &rt,
        rt.alloc(),
        WITH_A_HOLE,
        Areas::all(&list),
        &[],
        None,
        path,
    )
}

// Strokes that would be one path.
const STROKES: &str = "\
1 0 56 0 0 0 16 0
1 0 56 0 16 0 32 0
1 0 56 0 32 0 48 0
1 0 56 0 48 0 64 0
1 0 56 0 64 0 80 0
";

// An area is a path by itself, also beside strokes and areas that are drawn as its edges are.
#[test]
fn beside_strokes(rt: HostRuntime) -> Result<(), Fail> {
    let list = [
        Area {
            first: 1,
            end: 2,
            rule: Rule::Winding,
        },
        Area {
            first: 2,
            end: 4,
            rule: Rule::Winding,
        },
    ];
    let paths = "<path class=\"pen1\" stroke=\"#000000\" stroke-width=\"56\" d=\"M0 1056l16 0\"/>\n\
<path class=\"pen1\" stroke=\"#000000\" stroke-width=\"56\" fill=\"#000000\" d=\"M16 1056l16 0\"/>\n\
<path class=\"pen1\" stroke=\"#000000\" stroke-width=\"56\" fill=\"#000000\" d=\"M32 1056l16 0l16 0\"/>\n\
<path class=\"pen1\" stroke=\"#000000\" stroke-width=\"56\" d=\"M64 1056l16 0\"/>\n";
    draws(
        &rt,
        rt.alloc(),
        STROKES,
        Areas::all(&list),
        &[],
        None,
        paths,
    )
}

// An area of another pen is left out, and ends no path.
#[test]
fn left_out(rt: HostRuntime) -> Result<(), Fail> {
    let strokes = "1 0 56 0 0 0 16 0\n3 0 0 0 5 5 9 5\n3 0 0 0 9 5 5 5\n1 0 56 0 16 0 32 0\n";
    let list = [Area {
        first: 1,
        end: 3,
        rule: Rule::Winding,
    }];
    let path =
        "<path class=\"pen1\" stroke=\"#000000\" stroke-width=\"56\" d=\"M0 1056l16 0l16 0\"/>\n";
    draws(&rt, rt.alloc(), strokes, Areas::all(&list), &[], None, path)
}

// The window of an area is its clip path.
#[test]
fn clipped(rt: HostRuntime) -> Result<(), Fail> {
    let strokes = "1 0 0 1 0 0 9 0\n1 0 0 1 9 0 0 0\n";
    let list = [Area {
        first: 0,
        end: 2,
        rule: Rule::OddCounts,
    }];
    let paths = "<defs>\n\
<clipPath id=\"w0_736_160_320\"><rect x=\"0\" y=\"736\" width=\"160\" height=\"320\"/></clipPath>\n\
</defs>\n\
<path class=\"pen1\" stroke=\"#000000\" stroke-width=\"24\" fill=\"#000000\" fill-rule=\"evenodd\" \
        clip-path=\"url(#w0_736_160_320)\" d=\"M0 1056l9 0l-9 0\"/>\n";
    draws(
        &rt,
        rt.alloc(),
        strokes,
        Areas::all(&list),
        &[],
        None,
        paths,
    )
}

// An area between labels, and the same on the second sheet.
#[test]
fn between_labels(rt: HostRuntime) -> Result<(), Fail> {
    let list = [Area {
        first: 2,
        end: 4,
        rule: Rule::Winding,
    }];
    let labels = [(1, 2, "A"), (4, 5, "B")];
    let (first, second) = (
        "<path class=\"pen1\" stroke=\"#000000\" stroke-width=\"56\" d=\"M0 1056l16 0\"/>\n",
        "\
<g><title>A</title>\n<path class=\"pen1\" stroke=\"#000000\" stroke-width=\"56\" d=\"M16 1056l16 0\"/>\n</g>\n\
<path class=\"pen1\" stroke=\"#000000\" stroke-width=\"56\" fill=\"#000000\" d=\"M32 1056l16 0l16 0\"/>\n\
<g><title>B</title>\n<path class=\"pen1\" stroke=\"#000000\" stroke-width=\"56\" d=\"M64 1056l16 0\"/>\n</g>\n",
    );
    let mut all = String::new(rt.alloc());
    write!(all, "{first}{second}")?;
    draws(
        &rt,
        rt.alloc(),
        STROKES,
        Areas::all(&list),
        &labels,
        None,
        all.as_str(),
    )?;
    let mut sheets = String::new(rt.alloc());
    write!(
        sheets,
        "<g id=\"sheet-1\">\n{first}</g>\n<g id=\"sheet-2\">\n{second}</g>\n"
    )?;
    draws(
        &rt,
        rt.alloc(),
        STROKES,
        Areas::all(&list),
        &labels,
        Some(&[1]),
        sheets.as_str(),
    )
}

// An area has as many edges as it has.
#[test]
fn more_than_a_run(rt: HostRuntime) -> Result<(), Fail> {
    let mut strokes = String::new(rt.alloc());
    let mut path = String::new(rt.alloc());
    path.push_str(
        "<path class=\"pen1\" stroke=\"#000000\" stroke-width=\"24\" fill=\"#000000\" d=\"M0 1056",
    )?;
    for _ in 0..1_500u32 {
        strokes.push_str("1 0 0 0 0 0 0 0\n")?;
        path.push_str("l0 0")?;
    }
    path.push_str("\"/>\n")?;
    let list = [Area {
        first: 0,
        end: 1_500,
        rule: Rule::Winding,
    }];
    draws(
        &rt,
        rt.alloc(),
        strokes.as_str(),
        Areas::all(&list),
        &[],
        None,
        path.as_str(),
    )
}
