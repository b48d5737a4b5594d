//! Images in SVG documents, byte by byte. An independent writer of PNG and of base64 made what is wanted.
ghost use Rattle.std.specs.Prelude.{IfOk, ◌≡◌, ◌∷◌, []};

use crate::svg_documents::{FOOT, HEAD};
use crate::svg_strokes::{page, strokes_of, three_pens};
use areas::Areas;
use devices::{OverWrite, Sink};
use image_colours::{Coding, Palette, Space};
use page_images::{Image, PageImage, PageImages, Place, Turn};
use plot_page::MOST_STROKES;
use raster_graphics::{Density, Numbers, Planes, Settings};
use std::alloc::Global;
use std::process::Abort;
use std::test::Fail;
use stroke_runs::SheetView;
use svg::{ClipPaths, write_svg, write_svg_sheets};

// An image of a document: how its dots are coded, whether white is opaque, how many dots a row has, the planes of the rows 0, 1
// and 3, after how many strokes it is drawn, and how it is turned.
#[derive(Clone, Copy)]
struct Drawn<'a> {
    coding: Coding,
    is_opaque: bool,
    width: u64,
    planes: &'a [&'a [u8]],
    before: u32,
    turn: Turn,
}

// Copies of planes.
fn planes_of(alloc: Global, planes: &[&[u8]]) -> Result<Planes, Fail> {
    let mut copies = Planes::new(alloc);
    for plane in planes {
        let mut copy = Vec::new(alloc);
        copy.extend_from_slice(plane)?;
        if copy.len() >= 1 << 32 {
            return Err("a long plane".into());
        }
        copies.push(copy)?;
    }
    Ok(copies)
}

// Three numbers of rows, of which the last does not follow the one before it.
fn three_rows(alloc: Global) -> Result<Numbers, Fail>
    ensures { IfOk result (λ numbers. numbers ≡ 0 ∷ 1 ∷ 3 ∷ []) }
{
    let mut numbers = Numbers::new(alloc);
    numbers.push(0)?;
    numbers.push(1)?;
    numbers.push(3)?;
    Ok(numbers)
}

// An image of 127 dots to the inch, each of 8 plotter units.
fn image_of(alloc: Global, drawn: &Drawn<'_>) -> Result<PageImage, Fail> {
    let settings = Settings {
        resolution: Density::new(127),
        coding: drawn.coding,
        palette: Palette::new(drawn.coding),
        is_opaque: drawn.is_opaque,
        ..Settings::start()
    };
    let image = Image {
        corner: Place { x: 256, y: 128 },
        settings,
        width: drawn.width,
        numbers: three_rows(alloc)?,
        planes: planes_of(alloc, drawn.planes)?,
    };
    let mut image = PageImage::new(image, &page()?, drawn.before);
    image.turn = drawn.turn;
    Ok(image)
}

// The document of strokes and images, whose sheets end after so many strokes, and after so many images; with no ends it has no
// sheets.
fn document(
    alloc: Global,
    strokes: &str,
    images: &[Drawn<'_>],
    ends: &[usize],
    image_ends: &[usize],
) -> Result<Vec<u8>, Fail> {
    let strokes = strokes_of(alloc, strokes)?;
    if strokes.len() > MOST_STROKES {
        return Err("too many strokes".into());
    }
    let mut list = Vec::new(alloc);
    for image in images {
        list.push(image_of(alloc, image)?)?;
    }
    let mut sink = OverWrite::new(Vec::new(alloc));
    let (page, pens) = (page()?, three_pens());
    let clips = ClipPaths::of(alloc, &page, &pens, &strokes)?;
    let images = PageImages {
        list: list.as_slice(),
        first: 0,
    };
    let view = SheetView {
        page: &page,
        pens: &pens,
        strokes: &strokes,
        areas: Areas::none(),
        labels: &[],
        before: 0,
        images,
    };
    if ends.is_empty() {
        write_svg(&view, &clips, &mut sink)?;
    } else {
        write_svg_sheets(&view, ends, image_ends, &clips, &mut sink)?;
    }
    Ok(sink.into_inner())
}

// A black dot and a white one, two rows of them; and a row of a black dot at the right.
const BLACK: Drawn<'static> = Drawn {
    coding: Coding::Black,
    is_opaque: false,
    width: 2,
    planes: &[&[128], &[128], &[64]],
    before: 1,
    turn: Turn::None,
};

// Colours: red, green and blue at 0, 1 and 2.
const COLOURS: Drawn<'static> = Drawn {
    coding: Coding::DirectPixels(Space::Rgb),
    is_opaque: true,
    width: 3,
    planes: &[
        &[255, 0, 0, 0, 255, 0, 0, 0, 255],
        &[0, 0, 0, 255, 255, 255, 1, 2, 3],
        &[255, 255, 0],
    ],
    before: 1,
    turn: Turn::None,
};

// Two rows of a black dot and a white one, as a PNG.
const TWO_ROWS: &str =
    "iVBORw0KGgoAAAANSUhEUgAAAAIAAAACAQMAAABIeJ9nAAAABlBMVEX///8AAABVwtN+AAAAAnRSTlMA/1uRIrUAAAACSURBVHgB7Bp+0gAAAAdJREFUAAIA/f8AgCOyA5gAAAAHSURBVAACAP3/AIAjsgOYAAAACUlEQVQBAAD//wIEAQFb96jQAAAAAElFTkSuQmCC";

// A row of a white dot and a black one.
const ONE_ROW: &str =
    "iVBORw0KGgoAAAANSUhEUgAAAAIAAAABAQMAAADO7O3JAAAABlBMVEX///8AAABVwtN+AAAAAnRSTlMA/1uRIrUAAAACSURBVHgB7Bp+0gAAAAdJREFUAAIA/f8AQLjWwSgAAAAJSURBVAEAAP//AEIAQeou4fgAAAAASUVORK5CYII=";

// Six dots of six colours, white among them, which is opaque.
const SIX_COLOURS: &str =
    "iVBORw0KGgoAAAANSUhEUgAAAAMAAAACCAIAAAASFvFNAAAAAklEQVR4AewaftIAAAAPSURBVAAKAPX/AP8AAAD/AAAA/4TlwdcAAAAPSURBVAAKAPX/AAAAAP///wECA3CU1iMAAAAJSURBVAEAAP//O+IGATT6JS4AAAAASUVORK5CYII=";

// A yellow dot and two black ones.
const THREE_COLOURS: &str =
    "iVBORw0KGgoAAAANSUhEUgAAAAMAAAABCAIAAACUgoPjAAAAAklEQVR4AewaftIAAAAPSURBVAAKAPX/AP//AAAAAAAAAEXI7zAAAAAJSURBVAEAAP//EPkB/0b+CFwAAAAASUVORK5CYII=";

// A stroke, and its path.
const STROKE: &str = "1 0 56 0 0 0 16 0\n";

const PATH: &str =
    "<path class=\"pen1\" stroke=\"#000000\" stroke-width=\"56\" d=\"M0 1056l16 0\"/>\n";

// One that would go on its path, and the path that it has after an image.
const OTHER_STROKE: &str = "1 0 56 0 16 0 32 0\n";

const OTHER_PATH: &str =
    "<path class=\"pen1\" stroke=\"#000000\" stroke-width=\"56\" d=\"M16 1056l16 0\"/>\n";

// The numbers of the matrix of an image that is not turned.
const UPWARD: &str = "0 -128000000000e-9 128000000000e-9 0 256 928";

// A tile: its first row, its size, and its PNG.
fn tile(row: u32, columns: u32, rows: u32, png: &str) -> (u32, u32, u32, &str) {
    (row, columns, rows, png)
}

// The group of the tiles of an image, by the numbers of its matrix.
fn group(alloc: Global, matrix: &str, tiles: &[(u32, u32, u32, &str)]) -> Result<String, Fail> {
    let mut text = String::new(alloc);
    write!(
        text,
        "<svg x=\"0\" y=\"0\" width=\"1024\" height=\"1056\" viewBox=\"0 0 1024 1056\">\n\
<g transform=\"matrix({matrix})\">\n"
    )?;
    for (row, columns, rows, png) in tiles {
        write!(
            text,
            "<image x=\"0\" y=\"{row}\" width=\"{columns}\" height=\"{rows}\" \
preserveAspectRatio=\"none\" image-rendering=\"pixelated\" \
xmlns:xlink=\"http://www.w3.org/1999/xlink\" xlink:href=\"data:image/png;base64,{png}\"/>\n"
        )?;
    }
    text.push_str("</g></svg>\n")?;
    Ok(text)
}

// The group of the black dots, by the numbers of its matrix.
fn black(alloc: Global, matrix: &str) -> Result<String, Fail> {
    group(
        alloc,
        matrix,
        &[tile(0, 2, 2, TWO_ROWS), tile(3, 2, 1, ONE_ROW)],
    )
}

// Fails unless a document has this body.
fn has_body(rt: &impl Abort, alloc: Global, bytes: &[u8], body: &[&str]) -> Result<(), Fail> {
    let mut wanted = String::new(alloc);
    wanted.push_str(HEAD)?;
    for part in body {
        wanted.push_str(part)?;
    }
    wanted.push_str(FOOT)?;
    assert_eq!(rt; str::from_utf8(bytes)?, wanted.as_str());
    Ok(())
}

// Both strokes.
fn strokes(alloc: Global) -> Result<String, Fail> {
    let mut text = String::new(alloc);
    text.push_str(STROKE)?;
    text.push_str(OTHER_STROKE)?;
    Ok(text)
}

#[test]
fn between_strokes(rt: HostRuntime) -> Result<(), Fail> {
    let alloc = rt.alloc();
    let bytes = document(alloc, strokes(alloc)?.as_str(), &[BLACK], &[], &[])?;
    let image = black(alloc, UPWARD)?;
    has_body(
        &rt,
        alloc,
        bytes.as_slice(),
        &[PATH, image.as_str(), OTHER_PATH],
    )
}

#[test]
fn before_strokes_and_after_them(rt: HostRuntime) -> Result<(), Fail> {
    let alloc = rt.alloc();
    let first = Drawn { before: 0, ..BLACK };
    let last = Drawn { before: 9, ..BLACK };
    let bytes = document(alloc, STROKE, &[first, last], &[], &[])?;
    let image = black(alloc, UPWARD)?;
    let body = [image.as_str(), PATH, image.as_str()];
    has_body(&rt, alloc, bytes.as_slice(), &body)
}

// White is opaque, and rows that were not sent are no part of the image.
#[test]
fn opaque_colours(rt: HostRuntime) -> Result<(), Fail> {
    let alloc = rt.alloc();
    let bytes = document(alloc, "", &[COLOURS], &[], &[])?;
    let tiles = [tile(0, 3, 2, SIX_COLOURS), tile(3, 3, 1, THREE_COLOURS)];
    let image = group(alloc, UPWARD, &tiles)?;
    has_body(&rt, alloc, bytes.as_slice(), &[image.as_str()])
}

// Fails unless an image that is turned has these numbers in its matrix.
fn has_matrix(rt: &impl Abort, alloc: Global, turn: Turn, matrix: &str) -> Result<(), Fail> {
    let bytes = document(alloc, "", &[Drawn { turn, ..BLACK }], &[], &[])?;
    let image = black(alloc, matrix)?;
    has_body(rt, alloc, bytes.as_slice(), &[image.as_str()])
}

#[test]
fn turned(rt: HostRuntime) -> Result<(), Fail> {
    let alloc = rt.alloc();
    let quarter = "-128000000000e-9 0 0 -128000000000e-9 256 928";
    has_matrix(&rt, alloc, Turn::Quarter, quarter)?;
    let half = "0 128000000000e-9 -128000000000e-9 0 256 928";
    has_matrix(&rt, alloc, Turn::Half, half)?;
    let three_quarters = "128000000000e-9 0 0 128000000000e-9 256 928";
    has_matrix(&rt, alloc, Turn::ThreeQuarters, three_quarters)
}

// A sheet that has only an image counts, one that has nothing does not, and each image is on its own sheet.
#[test]
fn sheets_of_images(rt: HostRuntime) -> Result<(), Fail> {
    let alloc = rt.alloc();
    let last = Drawn { before: 2, ..BLACK };
    let both = strokes(alloc)?;
    let images = [BLACK, last];
    let bytes = document(alloc, both.as_str(), &images, &[1, 1, 1, 2], &[0, 0, 1, 1])?;
    let image = black(alloc, UPWARD)?;
    let body = [
        "<g id=\"sheet-1\">\n",
        PATH,
        "</g>\n<g id=\"sheet-2\">\n",
        image.as_str(),
        "</g>\n<g id=\"sheet-3\">\n",
        OTHER_PATH,
        "</g>\n<g id=\"sheet-4\">\n",
        image.as_str(),
        "</g>\n",
    ];
    has_body(&rt, alloc, bytes.as_slice(), &body)
}

// A row of more dots than a tile has is cut.
#[test]
fn cut_into_strips(rt: HostRuntime) -> Result<(), Fail> {
    let alloc = rt.alloc();
    let wide = Drawn {
        width: 16_385,
        ..BLACK
    };
    let bytes = document(alloc, "", &[wide], &[], &[])?;
    let text = str::from_utf8(bytes.as_slice())?;
    assert_eq!(&rt; text.split("<image ").count(), 5);
    assert!(&rt; text.contains("<image x=\"0\" y=\"0\" width=\"16384\" height=\"2\" "));
    assert!(&rt; text.contains("<image x=\"16384\" y=\"0\" width=\"1\" height=\"2\" "));
    assert!(&rt; text.contains("<image x=\"16384\" y=\"3\" width=\"1\" height=\"1\" "));
    Ok(())
}
