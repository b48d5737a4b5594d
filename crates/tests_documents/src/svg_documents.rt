//! Documents, byte by byte.
use crate::svg_strokes::{page, strokes_of, three_pens};
use areas::Areas;
use devices::{OverWrite, Sink};
use page_images::PageImages;
use plot_page::{MOST_STROKES, Page};
use std::alloc::Global;
use std::process::Abort;
use std::test::Fail;
use stroke_runs::SheetView;
use svg::{ClipPaths, write_svg};

// What comes before the paths on the page of 64 by 66 units.
pub const HEAD: &str = "<?xml version=\"1.0\" encoding=\"UTF-8\"?>\n\
<svg xmlns=\"http://www.w3.org/2000/svg\" width=\"1.6mm\" height=\"1.65mm\" viewBox=\"0 0 1024 1056\">\n\
<g fill=\"none\" stroke-linecap=\"round\" stroke-linejoin=\"round\">\n";

// What comes after them.
pub const FOOT: &str = "</g></svg>\n";

// Fails unless this is the document of the strokes of three pens on a page.
fn is_document(
    rt: &impl Abort,
    alloc: Global,
    page: &Page,
    strokes: &str,
    want: &[&str],
) -> Result<(), Fail> {
    let strokes = strokes_of(alloc, strokes)?;
    if strokes.len() > MOST_STROKES {
        return Err("too many strokes".into());
    }
    let mut text = String::new(alloc);
    for part in want {
        text.push_str(part)?;
    }
    let mut sink = OverWrite::new(Vec::new(alloc));
    let pens = three_pens();
    let clips = ClipPaths::of(alloc, page, &pens, &strokes)?;
    let view = SheetView {
        page,
        pens: &pens,
        strokes: &strokes,
        areas: Areas::none(),
        labels: &[],
        before: 0,
        images: PageImages::none(),
    };
    let bytes = write_svg(&view, &clips, &mut sink)?;
    assert_eq!(rt; sink.failures(), 0);
    assert_eq!(rt;
        str::from_utf8(sink.into_inner().as_slice())?,
        text.as_str()
    );
    assert_eq!(rt; bytes, text.len() as u64);
    Ok(())
}

// Fails unless these are the paths of the strokes of three pens.
fn draws(rt: &impl Abort, alloc: Global, strokes: &str, paths: &str) -> Result<(), Fail> {
    is_document(rt, alloc, &page()?, strokes, &[HEAD, paths, FOOT])
}

#[test]
fn no_strokes(rt: HostRuntime) -> Result<(), Fail> {
    draws(&rt, rt.alloc(), "", "")
}

// Fails unless a page of this size in plotter units has this size in millimetres.
fn has_size(
    rt: &impl Abort,
    alloc: Global,
    width: u32,
    height: u32,
    wide: &str,
    high: &str,
) -> Result<(), Fail> {
    let page = Page::new(width, height, 7, 8)?;
    let (right, lower) = (16 * u64::from(width), 16 * u64::from(height));
    let mut head = String::new(alloc);
    write!(
        head,
        "<?xml version=\"1.0\" encoding=\"UTF-8\"?>\n<svg xmlns=\"http://www.w3.org/2000/svg\" \
        width=\"{wide}mm\" height=\"{high}mm\" viewBox=\"0 0 {right} {lower}\">\n"
    )?;
    let group = "<g fill=\"none\" stroke-linecap=\"round\" stroke-linejoin=\"round\">\n";
    is_document(rt, alloc, &page, "", &[head.as_str(), group, FOOT])
}

// Millimetres have as many decimals as they need.
#[test]
fn sizes(rt: HostRuntime) -> Result<(), Fail> {
    has_size(&rt, rt.alloc(), 11_880, 8_400, "297", "210")?;
    has_size(&rt, rt.alloc(), 65_536, 65, "1638.4", "1.625")?;
    has_size(&rt, rt.alloc(), 81, 82, "2.025", "2.05")?;
    has_size(&rt, rt.alloc(), 84, 119, "2.1", "2.975")
}

// Lines that follow one another, some elsewhere, and one of length zero; y grows downward from the upper edge. Each command
// is the shorter one, and absolute if both are equally long.
#[test]
fn one_path(rt: HostRuntime) -> Result<(), Fail> {
    let strokes = "\
1 0 56 0 0 0 1024 1056
1 0 56 0 1024 1056 512 1055
1 0 56 0 500 1055 512 1055
1 0 56 0 512 1054 700 1054
1 0 56 0 16 32 16 32
";
    let paths = "<path class=\"pen1\" stroke=\"#000000\" stroke-width=\"56\" \
        d=\"M0 1056L1024 0L512 1M500 1l12 0m0 1L700 2M16 1024l0 0\"/>\n";
    draws(&rt, rt.alloc(), strokes, paths)
}

// Ends lie as far off the page as they can.
#[test]
fn off_the_page(rt: HostRuntime) -> Result<(), Fail> {
    let strokes = "255 1 12800 0 -1048576 -1048576 1048576 1048576\n";
    let paths = "<path class=\"pen255\" stroke=\"#01abfe\" stroke-width=\"12800\" \
        d=\"M-1048576 1049632L1048576 -1047520\"/>\n";
    draws(&rt, rt.alloc(), strokes, paths)
}

// The width is at least 24 grains, but two widths that are raised so are two paths.
#[test]
fn least_width(rt: HostRuntime) -> Result<(), Fail> {
    let strokes = "1 0 0 0 0 0 0 1\n1 0 23 0 0 1 0 2\n1 0 24 0 0 2 0 3\n1 0 25 0 0 3 0 4\n";
    let paths = "<path class=\"pen1\" stroke=\"#000000\" stroke-width=\"24\" d=\"M0 1056l0 -1\"/>\n\
<path class=\"pen1\" stroke=\"#000000\" stroke-width=\"24\" d=\"M0 1055l0 -1\"/>\n\
<path class=\"pen1\" stroke=\"#000000\" stroke-width=\"24\" d=\"M0 1054l0 -1\"/>\n\
<path class=\"pen1\" stroke=\"#000000\" stroke-width=\"25\" d=\"M0 1053l0 -1\"/>\n";
    draws(&rt, rt.alloc(), strokes, paths)
}

// A path ends where the pen or a part of the colour changes.
#[test]
fn pens_and_colours(rt: HostRuntime) -> Result<(), Fail> {
    let strokes = "\
1 0 56 0 0 0 0 0
2 0 56 0 0 0 0 0
2 2 56 0 0 0 0 0
2 0 56 0 0 0 0 0
2 3 56 0 0 0 0 0
2 0 56 0 0 0 0 0
2 4 56 0 0 0 0 0
";
    let paths = "\
<path class=\"pen1\" stroke=\"#000000\" stroke-width=\"56\" d=\"M0 1056l0 0\"/>\n\
<path class=\"pen2\" stroke=\"#000000\" stroke-width=\"56\" d=\"M0 1056l0 0\"/>\n\
<path class=\"pen2\" stroke=\"#100000\" stroke-width=\"56\" d=\"M0 1056l0 0\"/>\n\
<path class=\"pen2\" stroke=\"#000000\" stroke-width=\"56\" d=\"M0 1056l0 0\"/>\n\
<path class=\"pen2\" stroke=\"#001000\" stroke-width=\"56\" d=\"M0 1056l0 0\"/>\n\
<path class=\"pen2\" stroke=\"#000000\" stroke-width=\"56\" d=\"M0 1056l0 0\"/>\n\
<path class=\"pen2\" stroke=\"#000010\" stroke-width=\"56\" d=\"M0 1056l0 0\"/>\n";
    draws(&rt, rt.alloc(), strokes, paths)
}

// Each window other than the page is a clip path once, in the order of its left edge, its upper edge, its width and its
// height, whatever the order of the strokes.
#[test]
fn windows(rt: HostRuntime) -> Result<(), Fail> {
    let strokes = "\
1 0 56 2 0 0 0 0
1 0 56 0 0 0 0 0
1 0 56 1 0 0 0 0
1 0 57 1 0 0 0 0
1 0 56 2 0 0 0 0
1 0 56 6 0 0 0 0
1 0 56 7 0 0 0 0
1 0 56 8 0 0 0 0
1 0 56 3 0 0 0 0
";
    let paths = "<defs>\n\
<clipPath id=\"w0_736_160_160\"><rect x=\"0\" y=\"736\" width=\"160\" height=\"160\"/></clipPath>\n\
<clipPath id=\"w0_736_160_320\"><rect x=\"0\" y=\"736\" width=\"160\" height=\"320\"/></clipPath>\n\
<clipPath id=\"w0_736_320_320\"><rect x=\"0\" y=\"736\" width=\"320\" height=\"320\"/></clipPath>\n\
<clipPath id=\"w0_896_160_160\"><rect x=\"0\" y=\"896\" width=\"160\" height=\"160\"/></clipPath>\n\
<clipPath id=\"w5_1050_0_0\"><rect x=\"5\" y=\"1050\" width=\"0\" height=\"0\"/></clipPath>\n\
<clipPath id=\"w512_0_512_1056\"><rect x=\"512\" y=\"0\" width=\"512\" height=\"1056\"/></clipPath>\n\
</defs>\n\
<path class=\"pen1\" stroke=\"#000000\" stroke-width=\"56\" clip-path=\"url(#w512_0_512_1056)\" d=\"M0 1056l0 0\"/>\n\
<path class=\"pen1\" stroke=\"#000000\" stroke-width=\"56\" d=\"M0 1056l0 0\"/>\n\
<path class=\"pen1\" stroke=\"#000000\" stroke-width=\"56\" clip-path=\"url(#w0_736_160_320)\" d=\"M0 1056l0 0\"/>\n\
<path class=\"pen1\" stroke=\"#000000\" stroke-width=\"57\" clip-path=\"url(#w0_736_160_320)\" d=\"M0 1056l0 0\"/>\n\
<path class=\"pen1\" stroke=\"#000000\" stroke-width=\"56\" clip-path=\"url(#w512_0_512_1056)\" d=\"M0 1056l0 0\"/>\n\
<path class=\"pen1\" stroke=\"#000000\" stroke-width=\"56\" clip-path=\"url(#w0_736_320_320)\" d=\"M0 1056l0 0\"/>\n\
<path class=\"pen1\" stroke=\"#000000\" stroke-width=\"56\" clip-path=\"url(#w0_736_160_160)\" d=\"M0 1056l0 0\"/>\n\
<path class=\"pen1\" stroke=\"#000000\" stroke-width=\"56\" clip-path=\"url(#w0_896_160_160)\" d=\"M0 1056l0 0\"/>\n\
<path class=\"pen1\" stroke=\"#000000\" stroke-width=\"56\" clip-path=\"url(#w5_1050_0_0)\" d=\"M0 1056l0 0\"/>\n";
    draws(&rt, rt.alloc(), strokes, paths)
}

// Strokes of other pens, and with an empty window, are left out, end no path, and have no clip path.
#[test]
fn left_out(rt: HostRuntime) -> Result<(), Fail> {
    let strokes = "\
3 0 56 0 1 1 1 1
1 0 56 0 10 0 20 0
3 0 56 0 20 0 30 0
1 0 56 4 20 0 30 0
2 0 56 5 20 0 30 0
1 0 56 0 20 0 40 0
4 0 56 2 40 0 50 0
";
    let paths =
        "<path class=\"pen1\" stroke=\"#000000\" stroke-width=\"56\" d=\"M10 1056l10 0l20 0\"/>\n";
    draws(&rt, rt.alloc(), strokes, paths)
}
