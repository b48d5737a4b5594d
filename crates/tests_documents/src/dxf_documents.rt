//! DXF documents, group by group.
use crate::svg_strokes::{page, strokes_of, three_pens};
use areas::Areas;
use devices::{OverWrite, Sink};
use dxf::{write_dxf, write_dxf_sheets};
use labels::{Label, Line, Place};
use page_images::PageImages;
use plot_page::MOST_STROKES;
use std::alloc::Global;
use std::process::Abort;
use std::test::Fail;
use stroke_runs::SheetView;

// What comes before the layers of pens on the page of 64 by 66 units. A blank stands for the end of a line.
const HEAD: &str = "\
0 SECTION 2 HEADER 9 $ACADVER 1 AC1009 9 $EXTMIN 10 0 20 0 30 0 9 $EXTMAX 10 1.6 20 1.65 30 0 9 $INSUNITS 70 4 0 ENDSEC \
0 SECTION 2 TABLES 0 TABLE 2 LTYPE 70 1 0 LTYPE 2 CONTINUOUS 70 0 3 Solid line 72 65 73 0 40 0 0 ENDTAB \
0 TABLE 2 LAYER 70 32767 0 LAYER 2 0 70 0 62 7 6 CONTINUOUS ";

// What comes between the layers and the entities, and after these.
const MIDDLE: &str = "\
0 ENDTAB 0 TABLE 2 STYLE 70 1 0 STYLE 2 STANDARD 70 0 40 0 41 1 50 0 71 0 42 1 3 txt 4  0 ENDTAB 0 ENDSEC 0 SECTION 2 ENTITIES ";

const FOOT: &str = "0 ENDSEC 0 EOF ";

// Fails unless a document of the strokes of three pens, as one sheet, or as sheets that end after so many strokes, has these
// layers and these entities.
fn is_document(
    rt: &impl Abort,
    alloc: Global,
    strokes: &str,
    ends: Option<&[usize]>,
    labels: &[Label],
    layers: &str,
    entities: &str,
) -> Result<(), Fail> {
    let strokes = strokes_of(alloc, strokes)?;
    if strokes.len() > MOST_STROKES {
        return Err("too many strokes".into());
    }
    let mut sink = OverWrite::new(Vec::new(alloc));
    let (page, pens) = (page()?, three_pens());
    let view = SheetView {
        page: &page,
        pens: &pens,
        strokes: &strokes,
        areas: Areas::none(),
        labels,
        before: 0,
        images: PageImages::none(),
    };
    let bytes = match ends {
        Some(ends) => write_dxf_sheets(&view, ends, &mut sink)?,
        None => write_dxf(&view, &mut sink)?,
    };
    let document = sink.into_inner();
    assert_eq!(rt; bytes, document.len() as u64);
    let mut told = String::new(alloc);
    for line in str::from_utf8(document.as_slice())?.lines() {
        write!(told, "{line} ")?;
    }
    let mut want = String::new(alloc);
    write!(want, "{HEAD}{layers}{MIDDLE}{entities}{FOOT}")?;
    assert_eq!(rt; told.as_str(), want.as_str());
    Ok(())
}

// Lines by themselves and in chains, a point, and lines that a window cuts; the colour of a layer is that of its first line.
const STROKES: &str = "\
1 0 224 0 0 0 64 0
1 0 224 0 64 0 64 64
1 0 56 0 64 64 0 64
3 0 56 0 0 64 0 0
2 1 56 0 16 16 16 16
1 2 0 1 -32 16 96 16
1 2 0 1 96 16 288 17
1 2 0 1 288 17 300 400
";

const ENTITIES: &str = "\
0 POLYLINE 8 PEN_1 66 1 10 0 20 0 30 0 70 0 40 0.35 41 0.35 \
0 VERTEX 8 PEN_1 10 0 20 0 0 VERTEX 8 PEN_1 10 0.1 20 0 0 VERTEX 8 PEN_1 10 0.1 20 0.1 0 SEQEND \
0 LINE 8 PEN_1 10 0.1 20 0.1 11 0 21 0.1 \
0 POINT 8 PEN_2 10 0.025 20 0.025 \
0 POLYLINE 8 PEN_1 66 1 10 0 20 0 30 0 70 0 40 0 41 0 \
0 VERTEX 8 PEN_1 10 0 20 0.025 0 VERTEX 8 PEN_1 10 0.15 20 0.025 0 VERTEX 8 PEN_1 10 0.25 20 0.0255208 0 SEQEND ";

const LAYERS: &str = "\
0 LAYER 2 PEN_1 70 0 62 7 6 CONTINUOUS 0 LAYER 2 PEN_2 70 0 62 140 6 CONTINUOUS ";

#[test]
fn lines(rt: HostRuntime) -> Result<(), Fail> {
    let alloc = rt.alloc();
    is_document(&rt, alloc, STROKES, None, &[], LAYERS, ENTITIES)?;
    is_document(&rt, alloc, "3 0 56 0 0 64 0 0\n", None, &[], "", "")
}

// A label upward, whose second sign has an escape, and whose third one has no code in DXF.
fn upright(alloc: Global) -> Result<Label, Fail> {
    let end = Place { x: 16, y: 64 };
    let mut line = Line::new(alloc, Place { x: 16, y: 32 }, Place { x: 0, y: 32 });
    for code_point in [65, 37, 0x1F600] {
        line.push(code_point, end)?;
    }
    let mut lines = Vec::new(alloc);
    lines.push(line)?;
    Ok(Label {
        first: 1,
        after: 2,
        lines,
    })
}

// A text comes instead of the strokes of its label, and ends a chain.
#[test]
fn texts(rt: HostRuntime) -> Result<(), Fail> {
    let alloc = rt.alloc();
    let strokes = "1 0 56 0 0 0 64 0\n2 1 56 0 64 0 64 64\n1 0 56 0 64 0 0 64\n";
    let mut labels = Vec::new(alloc);
    labels.push(upright(alloc)?)?;
    let entities = "\
0 LINE 8 PEN_1 10 0 20 0 11 0.1 21 0 \
0 TEXT 8 PEN_2 10 0.025 20 0.05 40 0.025 1 A\\U+0025\\U+FFFD 50 90 41 0.6666 7 STANDARD 72 5 11 0.025 21 0.1 \
0 LINE 8 PEN_1 10 0.1 20 0 11 0 21 0.1 ";
    is_document(&rt, alloc, strokes, None, &labels, LAYERS, entities)
}

// Each sheet has its own layers; one without lines of these pens has none, but counts.
#[test]
fn sheets(rt: HostRuntime) -> Result<(), Fail> {
    let alloc = rt.alloc();
    let strokes = "2 1 56 0 0 0 64 0\n3 0 56 0 0 0 64 0\n2 0 56 0 0 0 64 0\n2 1 56 0 64 0 0 0\n";
    let layers = "\
0 LAYER 2 S1_PEN_2 70 0 62 140 6 CONTINUOUS 0 LAYER 2 S3_PEN_2 70 0 62 7 6 CONTINUOUS ";
    let entities = "\
0 LINE 8 S1_PEN_2 10 0 20 0 11 0.1 21 0 0 LINE 8 S3_PEN_2 10 0 20 0 11 0.1 21 0 \
0 LINE 8 S3_PEN_2 62 140 10 0.1 20 0 11 0 21 0 ";
    is_document(&rt, alloc, strokes, Some(&[1, 1, 2]), &[], layers, entities)
}
