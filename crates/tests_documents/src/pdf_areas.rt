//! Areas in documents, by the text of a page.
ghost use Rattle.std.specs.Prelude.{◌≡◌};

use crate::pdf_strokes::{BLACK, Look, write_view};
use areas::{Area, Areas};
use deflate::{PIECE, TextEncoder};
use devices::{OverWrite, Sink};
use page_images::PageImages;
use plot_page::{Page, PenSet, Stroke};
use polygons::Rule;
use std::alloc::Global;
use std::process::Abort;
use std::test::Fail;
use stroke_runs::SheetView;

// What an area is drawn with: its edges are as narrow as a stroke can be.
const EDGE: Look = Look { width: 0, ..BLACK };

// The bytes of a document of some strokes, some of which are the edges of these areas, whose sheets end there.
fn document_of(
    rt: &impl Abort,
    alloc: Global,
    strokes: &[Stroke],
    areas: Areas<'_>,
    ends: &[usize],
) -> Result<Vec<u8>, Fail> {
    let page = Page::new(1016, 2032, 7, 8)?;
    let pens = PenSet::none().with(1).with(2);
    let view = SheetView {
        page: &page,
        pens: &pens,
        strokes,
        areas,
        labels: &[],
        before: 0,
        images: PageImages::none(),
    };
    let mut sink = OverWrite::new(Vec::new(alloc));
    let mut encoder = TextEncoder::new(alloc)?;
    let bytes = write_view(alloc, &mut encoder, "", &view, ends, &mut sink)?;
    assert_eq!(rt; sink.failures(), 0);
    let document = sink.into_inner();
    assert_eq!(rt; bytes, document.len() as u64);
    Ok(document)
}

// The stream of a text.
fn stream_of(alloc: Global, text: &str) -> Result<Vec<u8>, Fail> {
    let mut encoder = TextEncoder::new(alloc)?;
    encoder.begin();
    if text.len() > PIECE || encoder.is_full() {
        return Err("too long a text".into());
    }
    encoder.take(text.as_bytes());
    if encoder.is_full() {
        return Err("too long a stream".into());
    }
    encoder.end();
    let mut stream = Vec::new(alloc);
    stream.extend_from_slice(encoder.bytes())?;
    Ok(stream)
}

// Fails unless a document has the stream of a page with this text after what each page begins with.
fn has_page(rt: &impl Abort, alloc: Global, document: &[u8], text: &str) -> Result<(), Fail> {
    let mut content = String::new(alloc);
    content.push_str("0.004429133858 0 0 0.004429133858 0 0 cm\n1 J\n1 j\n")?;
    content.push_str(text)?;
    let stream = stream_of(alloc, content.as_str())?;
    let mut is_found = false;
    for at in 0..document.len() {
        is_found = is_found || document[at..].starts_with(stream.as_slice());
    }
    assert!(rt; is_found, "{text}");
    Ok(())
}

// Strokes of one look from place to place.
fn push_chain(strokes: &mut Vec<Stroke>, look: Look, places: &[(i32, i32)]) -> Result<(), Fail> {
    let mut last = None;
    for to in places {
        if let Some((ax, ay)) = last {
            strokes.push(look.stroke([ax, ay, to.0, to.1])?)?;
        }
        last = Some(*to);
    }
    Ok(())
}

// An area whose edges are the strokes after the first ones up to number `end`.
fn area(first: usize, end: usize, rule: Rule) -> Area
    ensures { result ≡ record { first = first; end = end; rule = rule } }
{
    Area { first, end, rule }
}

const SQUARE: [(i32, i32); 5] = [(0, 0), (320, 0), (320, 320), (0, 320), (0, 0)];

const HOLE: [(i32, i32); 4] = [(80, 80), (240, 80), (80, 240), (80, 80)];

// A line to where an area begins that has a hole, and one from where it ends.
#[test]
fn a_hole(rt: HostRuntime) -> Result<(), Fail> {
    let mut strokes = Vec::new(rt.alloc());
    push_chain(&mut strokes, EDGE, &[(16, 16), (0, 0)])?;
    push_chain(&mut strokes, EDGE, &SQUARE)?;
    push_chain(&mut strokes, EDGE, &HOLE)?;
    push_chain(&mut strokes, EDGE, &[(80, 80), (96, 96)])?;
    let areas = [area(1, 8, Rule::OddCounts)];
    let document = document_of(&rt, rt.alloc(), &strokes, Areas::all(&areas), &[9])?;
    let text = "\
/OC /P1 BDC\nq\n0 0 0 RG\n24 w\n16 16 m\n0 0 l\nS\nQ\nEMC\n\
/OC /P1 BDC\nq\n0 0 0 RG\n24 w\n0 0 0 rg\n\
0 0 m\n320 0 l\n320 320 l\n0 320 l\n0 0 l\nh\n\
80 80 m\n240 80 l\n80 240 l\n80 80 l\nh\n\
B*\nQ\nEMC\n\
/OC /P1 BDC\nq\n0 0 0 RG\n24 w\n80 80 m\n96 96 l\nS\nQ\nEMC\n";
    has_page(&rt, rt.alloc(), &document, text)
}

// Two areas of one look that follow one another, by winding and in a window. A point and edges that do not lead back are
// filled, too, and an area of a pen that is not selected is left out.
#[test]
fn areas_one_after_another(rt: HostRuntime) -> Result<(), Fail> {
    let orange = Look {
        pen: 2,
        colour: [255, 136, 1],
        width: 0,
        window: [160, 320, 8000, 9000],
    };
    let unselected = Look { pen: 3, ..EDGE };
    let mut strokes = Vec::new(rt.alloc());
    push_chain(&mut strokes, orange, &HOLE)?;
    push_chain(&mut strokes, orange, &[(80, 80), (80, 80)])?;
    push_chain(&mut strokes, orange, &[(80, 80), (240, 80), (80, 240)])?;
    push_chain(&mut strokes, unselected, &SQUARE)?;
    let areas = [
        area(0, 3, Rule::Winding),
        area(3, 4, Rule::Winding),
        area(4, 6, Rule::OddCounts),
        area(6, 10, Rule::OddCounts),
    ];
    let document = document_of(&rt, rt.alloc(), &strokes, Areas::all(&areas), &[10])?;
    let text = "\
/OC /P2 BDC\nq\n160 320 7840 8680 re\nW\nn\n1 0.533 0.004 RG\n24 w\n1 0.533 0.004 rg\n\
80 80 m\n240 80 l\n80 240 l\n80 80 l\nh\nB\nQ\nEMC\n\
/OC /P2 BDC\nq\n160 320 7840 8680 re\nW\nn\n1 0.533 0.004 RG\n24 w\n1 0.533 0.004 rg\n\
80 80 m\n80 80 l\nh\nB\nQ\nEMC\n\
/OC /P2 BDC\nq\n160 320 7840 8680 re\nW\nn\n1 0.533 0.004 RG\n24 w\n1 0.533 0.004 rg\n\
80 80 m\n240 80 l\n80 240 l\nB*\nQ\nEMC\n";
    has_page(&rt, rt.alloc(), &document, text)
}

// The second sheet has the second area.
#[test]
fn areas_of_sheets(rt: HostRuntime) -> Result<(), Fail> {
    let mut strokes = Vec::new(rt.alloc());
    push_chain(&mut strokes, EDGE, &HOLE)?;
    push_chain(&mut strokes, BLACK, &[(0, 0), (9, 9)])?;
    push_chain(&mut strokes, EDGE, &HOLE)?;
    let areas = [area(0, 3, Rule::OddCounts), area(4, 7, Rule::Winding)];
    let document = document_of(&rt, rt.alloc(), &strokes, Areas::all(&areas), &[3, 7])?;
    let first = "/OC /P1 BDC\nq\n0 0 0 RG\n24 w\n0 0 0 rg\n\
80 80 m\n240 80 l\n80 240 l\n80 80 l\nh\nB*\nQ\nEMC\n";
    has_page(&rt, rt.alloc(), &document, first)?;
    let second = "/OC /P1 BDC\nq\n0 0 0 RG\n56 w\n0 0 m\n9 9 l\nS\nQ\nEMC\n\
/OC /P1 BDC\nq\n0 0 0 RG\n24 w\n0 0 0 rg\n\
80 80 m\n240 80 l\n80 240 l\n80 80 l\nh\nB\nQ\nEMC\n";
    has_page(&rt, rt.alloc(), &document, second)
}
