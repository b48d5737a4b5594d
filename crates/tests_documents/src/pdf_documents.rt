//! Documents, byte by byte.
use crate::pdf_strokes::{BLACK, Look, WHOLE, write, write_titled, write_view};
use areas::Areas;
use crc32::crc_of;
use deflate::TextEncoder;
use devices::{OverWrite, Sink};
use page_images::PageImages;
use plot_page::{Page, PenSet, Stroke};
use std::alloc::Global;
use std::process::Abort;
use std::test::Fail;
use stroke_runs::SheetView;

// One page without strokes. A writer of our own in Python, and zlib's reading of the stream, say what these bytes are.
const EMPTY: &[u8] = b"\
%PDF-1.5\n\
%\xe2\xe3\xcf\xd3\n\
1 0 obj\n\
<</Type/Catalog/Pages 3 0 R/OCProperties<</OCGs 4 0 R/D<</Order 4 0 R/ON 4 0 R>>>>>>\n\
endobj\n\
2 0 obj\n\
<</Producer(plotraster 0.2.0)>>\n\
endobj\n\
3 0 obj\n\
<</Type/Pages/MediaBox[0 0 72 144]/Resources<</Properties<<>>>>/Count 1/Kids[ 5 0 R]>>\n\
endobj\n\
4 0 obj\n\
[]\n\
endobj\n\
5 0 obj\n\
<</Type/Page/Parent 3 0 R/Contents 6 0 R>>\n\
endobj\n\
6 0 obj\n\
<</Filter/FlateDecode/Length 7 0 R>>stream\n\
x\x01\xed\xfd\x05\xe0w=\xb2\x1f\x0e\xe1rpw\x08\xae\xbbw<\x13\x9cn\xcb\x85Bi{\x8b;\x14-\xe7\
\x0b\x14[\xdc\xdd\xdd\xdd\xdd\xdd\xdd\xdd\xdd\xdd\xdd\xa5\xc0g&'\xe7\xf7<\xbb\xef\xde\xfe+W\
\xfam\xef\xbe\xcf\xe77\xc9\xc4&\x93df\x92C?&2\x93\xc5\xaa\xe99h\xd0\xf8\xce\x9f~\xef\xe7\xe2\
\xf1\xdb/\x1e\xbf\xef\xfa\x03\xeau\x09_\
\n\
endstream\n\
endobj\n\
7 0 obj\n\
105\n\
endobj\n\
xref\n\
0 8\n\
0000000000 65535 f \n\
0000000015 00000 n \n\
0000000115 00000 n \n\
0000000162 00000 n \n\
0000000264 00000 n \n\
0000000282 00000 n \n\
0000000340 00000 n \n\
0000000514 00000 n \n\
trailer\n\
<</Size 8/Root 1 0 R/Info 2 0 R>>\n\
startxref\n\
533\n\
%%EOF\n";

/// The bytes of a document of some strokes.
pub fn bytes_of(
    rt: &impl Abort,
    alloc: Global,
    strokes: &[Stroke],
    ends: &[usize],
) -> Result<Vec<u8>, Fail> {
    let mut sink = OverWrite::new(Vec::new(alloc));
    let mut encoder = TextEncoder::new(alloc)?;
    let bytes = write(alloc, &mut encoder, strokes, ends, &mut sink)?;
    assert_eq!(rt; sink.failures(), 0);
    let document = sink.into_inner();
    assert_eq!(rt; bytes, document.len() as u64);
    Ok(document)
}

#[test]
fn no_strokes(rt: HostRuntime) -> Result<(), Fail> {
    let document = bytes_of(&rt, rt.alloc(), &[], &[0])?;
    assert!(&rt; document.as_slice() == EMPTY);
    Ok(())
}

// The strokes of two sheets: lines that follow one another, one of length zero, one in a window, and pens, colours and
// widths that change; a pen that is not selected, and a window that is empty.
pub fn two_sheets(alloc: Global) -> Result<Vec<Stroke>, Fail> {
    let orange = Look {
        pen: 2,
        colour: [255, 136, 1],
        width: 0,
        window: [160, 320, 8000, 9000],
    };
    let blue = Look {
        colour: [0, 0, 255],
        width: 800,
        ..BLACK
    };
    let green = Look {
        pen: 7,
        colour: [0, 128, 0],
        width: 300,
        window: WHOLE,
    };
    let unseen = Look {
        pen: 9,
        window: [5, 5, 4, 9],
        ..green
    };
    let unselected = Look { pen: 3, ..green };
    let mut strokes = Vec::new(alloc);
    strokes.push(BLACK.stroke([0, 448, 16_256, 448])?)?;
    strokes.push(BLACK.stroke([16_256, 448, 16_256, 32_512])?)?;
    strokes.push(unselected.stroke([16_256, 448, 16_256, 32_512])?)?;
    strokes.push(BLACK.stroke([1600, 3200, 1600, 3200])?)?;
    strokes.push(orange.stroke([0, 0, 16_256, 32_512])?)?;
    strokes.push(blue.stroke([0, 32_512, 16_256, 0])?)?;
    strokes.push(green.stroke([100, 100, 16_000, 100])?)?;
    strokes.push(unseen.stroke([100, 100, 16_000, 100])?)?;
    Ok(strokes)
}

// The same writer in Python says how long this document is, and its CRC-32.
#[test]
fn sheets_and_layers(rt: HostRuntime) -> Result<(), Fail> {
    let strokes = two_sheets(rt.alloc())?;
    let document = bytes_of(&rt, rt.alloc(), &strokes, &[6, 8])?;
    assert_eq!(&rt; (document.len(), crc_of(&document)), (1499, 0x1ff8_a361));
    Ok(())
}

// A title with letters of one byte, of two and of four: two numbers of 16 bits stand for the last one.
#[test]
fn titles(rt: HostRuntime) -> Result<(), Fail> {
    let mut sink = OverWrite::new(Vec::new(rt.alloc()));
    let mut encoder = TextEncoder::new(rt.alloc())?;
    let title = "Plan \u{e4}\u{1f604}";
    write_titled(
        rt.alloc(),
        &mut encoder,
        title,
        &[],
        &[0],
        &[],
        0,
        &mut sink,
    )?;
    assert_eq!(&rt; sink.failures(), 0);
    let document = sink.into_inner();
    assert_eq!(&rt; (document.len(), crc_of(&document)), (808, 0xc142_0203));
    Ok(())
}

// The document of a page without strokes that is so wide, in plotter units.
fn wide_page(rt: &impl Abort, alloc: Global, width: u32) -> Result<Vec<u8>, Fail> {
    let page = Page::roll(width, 64, 0, 0).ok_or("no page")?;
    let view = SheetView {
        page: &page,
        pens: &PenSet::none(),
        strokes: &[],
        areas: Areas::none(),
        labels: &[],
        before: 0,
        images: PageImages::none(),
    };
    let mut sink = OverWrite::new(Vec::new(alloc));
    let mut encoder = TextEncoder::new(alloc)?;
    write_view(alloc, &mut encoder, "", &view, &[0], &mut sink)?;
    assert_eq!(rt; sink.failures(), 0);
    Ok(sink.into_inner())
}

// Fails unless a document of a page that is so wide has this version, and this text between the page's parent and its content.
fn has_unit(
    rt: &impl Abort,
    alloc: Global,
    width: u32,
    version: &[u8],
    page: &[u8],
) -> Result<(), Fail> {
    let document = wide_page(rt, alloc, width)?;
    let document = document.as_slice();
    let mut is_found = false;
    for at in 0..document.len() {
        is_found = is_found || document[at..].starts_with(page);
    }
    assert!(rt; document.starts_with(version), "{width}");
    assert!(rt; is_found, "{width}");
    Ok(())
}

// A page of 14,400 points, and longer ones, which have larger units: their documents are of a later version.
#[test]
fn units_of_pages(rt: HostRuntime) -> Result<(), Fail> {
    let points = b"/Parent 3 0 R/Contents";
    let twos = b"/Parent 3 0 R/UserUnit 2/Contents";
    let threes = b"/Parent 3 0 R/UserUnit 3/Contents";
    has_unit(&rt, rt.alloc(), 203_200, b"%PDF-1.5\n", points)?;
    has_unit(&rt, rt.alloc(), 203_201, b"%PDF-1.6\n", twos)?;
    has_unit(&rt, rt.alloc(), 524_288, b"%PDF-1.6\n", threes)
}
