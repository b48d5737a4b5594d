// Polygons: what the buffer holds, and the spans that fill them.
ghost use Rattle.std.specs.Prelude.{◌≡◌};

use crate::texts::has_text;
use exact::Spot;
use polygons::{Buffer, Edge, Fill, Lines, Place, Rule, Span, all_spans};
use std::alloc::{AllocError, Global};
use std::process::Abort;
use std::test::Fail;

fn place(x: i16, y: i16) -> Place {
    Place::new(Spot {
        x: i128::from(x),
        y: i128::from(y),
    })
}

// `Buffer::reach`, with no promise: a test looks at what the buffer holds.
fn reach(buffer: &mut Buffer, x: i16, y: i16, is_drawn: bool) -> Result<(), AllocError> {
    buffer.reach(place(x, y), is_drawn)
}

// `Buffer::close`, with no promise.
fn close(buffer: &mut Buffer, is_drawn: bool) -> Result<(), AllocError> {
    buffer.close(is_drawn)
}

// `Buffer::open`, with no promise.
fn open(buffer: &mut Buffer, x: i16, y: i16) {
    buffer.open(place(x, y));
}

// A buffer with a closed sub-polygon more.
fn with(buffer: Buffer, places: &[(i16, i16)]) -> Result<Buffer, AllocError> {
    let mut buffer = buffer;
    for (x, y) in places {
        reach(&mut buffer, *x, *y, true)?;
    }
    close(&mut buffer, true)?;
    Ok(buffer)
}

// A plotter unit apart, from left to right.
fn solid() -> Lines
    ensures { result.apart ≡ 4096 }
{
    Lines {
        angle: 0,
        apart: 4096,
        anchor: place(0, 8),
    }
}

// Two places.
fn ends_of(alloc: Global, from: Place, to: Place) -> Result<String, AllocError> {
    let (a, b) = (from.spot(), to.spot());
    format!(in alloc; "{},{} to {},{}", a.x, a.y, b.x, b.y)
}

// The ends of spans.
fn text_of(alloc: Global, spans: &[Span]) -> Result<String, AllocError> {
    let mut text = String::new(alloc);
    for span in spans {
        text.push_str(ends_of(alloc, span.from, span.to)?.as_str())?;
        text.push_str("; ")?;
    }
    Ok(text)
}

// The spans that fill what a buffer holds, by lines that may be so far apart.
fn spans_of(alloc: Global, buffer: &Buffer, lines: Lines, rule: Rule) -> Result<Vec<Span>, Fail> {
    if lines.apart < 4096 || lines.apart > 1_099_511_627_776 {
        return Err("lines that may not be so far apart".into());
    }
    Ok(all_spans(alloc, buffer.edges(), lines, rule)?)
}

// The ends of the spans that fill what a buffer holds.
fn filled(alloc: Global, buffer: &Buffer, lines: Lines, rule: Rule) -> Result<String, Fail> {
    let spans = spans_of(alloc, buffer, lines, rule)?;
    Ok(text_of(alloc, &spans)?)
}

// The ends of edges, and a mark for each that is not drawn.
fn edges_of(alloc: Global, edges: &[Edge]) -> Result<String, AllocError> {
    let mut text = String::new(alloc);
    for edge in edges {
        text.push_str(ends_of(alloc, edge.from, edge.to)?.as_str())?;
        text.push_str(if edge.is_drawn { "; " } else { " not drawn; " })?;
    }
    Ok(text)
}

// Tells how many places a buffer holds, and whether a sub-polygon is open.
fn tell(told: &mut String, buffer: &Buffer) -> Result<(), AllocError> {
    let (places, is_open) = (buffer.places(), buffer.is_open());
    write!(told, "{places} {is_open}; ")
}

#[test]
fn sub_polygons_in_a_buffer(rt: HostRuntime) -> Result<(), AllocError> {
    let mut buffer = Buffer::new(rt.alloc());
    let mut told = String::new(rt.alloc());
    tell(&mut told, &buffer)?;
    open(&mut buffer, 0, 0);
    open(&mut buffer, 5, 5);
    reach(&mut buffer, 16, 0, true)?;
    reach(&mut buffer, 16, 16, false)?;
    tell(&mut told, &buffer)?;
    close(&mut buffer, false)?;
    tell(&mut told, &buffer)?;
    close(&mut buffer, true)?;
    open(&mut buffer, 7, 7);
    tell(&mut told, &buffer)?;
    close(&mut buffer, true)?;
    tell(&mut told, &buffer)?;
    buffer = with(buffer, &[(1, 1), (2, 2), (1, 1)])?;
    tell(&mut told, &buffer)?;
    told.push_str(edges_of(rt.alloc(), buffer.edges())?.as_str())?;
    has_text(
        &rt,
        told.as_str(),
        "0 false; 3 true; 3 false; 4 true; 3 false; 6 false; \
0,0 to 16,0; 16,0 to 16,16 not drawn; 16,16 to 0,0 not drawn; 1,1 to 2,2; 2,2 to 1,1; ",
    );
    Ok(())
}

// Line by line; after the last line there is none.
#[test]
fn a_rectangle_line_by_line(rt: HostRuntime) -> Result<(), AllocError> {
    let mut buffer = Buffer::new(rt.alloc());
    buffer = with(buffer, &[(0, 0), (64, 0), (64, 48), (0, 48)])?;
    let mut fill = Fill::new(rt.alloc(), buffer.edges(), solid(), Rule::OddCounts)?;
    let mut told = String::new(rt.alloc());
    for _ in 0..5 {
        let mut spans = Vec::new(rt.alloc());
        let is_line = fill.next_line(&mut spans)?;
        let spans = text_of(rt.alloc(), &spans)?;
        write!(told, "{is_line} {spans}")?;
    }
    has_text(
        &rt,
        told.as_str(),
        "true 0,8 to 64,8; true 0,24 to 64,24; true 0,40 to 64,40; false false ",
    );
    let mut spans = Vec::new(rt.alloc());
    let mut empty = Fill::new(rt.alloc(), &[], solid(), Rule::Winding)?;
    assert!(rt; !empty.next_line(&mut spans)?);
    Ok(())
}

// Fails unless these spans fill what a buffer holds.
fn is_filled(
    rt: &impl Abort,
    alloc: Global,
    buffer: &Buffer,
    rule: Rule,
    wanted: &str,
) -> Result<(), Fail> {
    let spans = filled(alloc, buffer, solid(), rule)?;
    has_text(rt, spans.as_str(), wanted);
    Ok(())
}

// The inner square is a hole by odd counts, and by winding only if it goes the other way round.
#[test]
fn holes(rt: HostRuntime) -> Result<(), Fail> {
    let mut same = Buffer::new(rt.alloc());
    same = with(same, &[(0, 0), (48, 0), (48, 48), (0, 48)])?;
    same = with(same, &[(16, 16), (32, 16), (32, 32), (16, 32)])?;
    let holed = "0,8 to 48,8; 0,24 to 16,24; 32,24 to 48,24; 0,40 to 48,40; ";
    is_filled(&rt, rt.alloc(), &same, Rule::OddCounts, holed)?;
    let whole = "0,8 to 48,8; 0,24 to 16,24; 16,24 to 32,24; 32,24 to 48,24; 0,40 to 48,40; ";
    is_filled(&rt, rt.alloc(), &same, Rule::Winding, whole)?;
    let mut other = Buffer::new(rt.alloc());
    other = with(other, &[(0, 0), (48, 0), (48, 48), (0, 48)])?;
    other = with(other, &[(16, 16), (16, 32), (32, 32), (32, 16)])?;
    is_filled(&rt, rt.alloc(), &other, Rule::Winding, holed)
}

// Far lines between two figures are not visited.
#[test]
fn shared_edges(rt: HostRuntime) -> Result<(), Fail> {
    let mut beside = Buffer::new(rt.alloc());
    beside = with(beside, &[(0, 0), (32, 0), (32, 32), (0, 32)])?;
    beside = with(beside, &[(32, 0), (64, 0), (64, 32), (32, 32)])?;
    let far = [(0, 32000), (9, 32000), (9, 32016), (0, 32016)];
    beside = with(beside, &far)?;
    let parts = "0,8 to 32,8; 32,8 to 64,8; 0,24 to 32,24; 32,24 to 64,24; 0,32008 to 9,32008; ";
    is_filled(&rt, rt.alloc(), &beside, Rule::OddCounts, parts)?;
    is_filled(&rt, rt.alloc(), &beside, Rule::Winding, parts)
}

// Eight plotter units apart.
fn sparse() -> Lines {
    Lines {
        angle: 0,
        apart: 32_768,
        anchor: place(0, 8),
    }
}

#[test]
fn a_star_by_both_rules(rt: HostRuntime) -> Result<(), Fail> {
    let mut star = Buffer::new(rt.alloc());
    let places = [(0, 300), (176, -243), (-285, 93), (285, 93), (-176, -243)];
    star = with(star, &places)?;
    let odd = filled(rt.alloc(), &star, sparse(), Rule::OddCounts)?;
    let winding = filled(rt.alloc(), &star, sparse(), Rule::Winding)?;
    has_text(
        &rt,
        odd.as_str(),
        "-136,-120 to -7,-120; 7,-120 to 136,-120; -168,8 to -95,8; 95,8 to 168,8; -53,136 to 53,136; \
-12,264 to 12,264; ",
    );
    has_text(
        &rt,
        winding.as_str(),
        "-136,-120 to -7,-120; 7,-120 to 136,-120; -168,8 to -95,8; -95,8 to 95,8; 95,8 to 168,8; \
-53,136 to 53,136; -12,264 to 12,264; ",
    );
    Ok(())
}

// What fills a triangle by lines of an angle, of which one goes through (x, y).
fn filled_at(alloc: Global, angle: i32, apart: u64, x: i16, y: i16) -> Result<String, Fail> {
    let mut triangle = Buffer::new(alloc);
    triangle = with(triangle, &[(0, 0), (100, 0), (0, 100)])?;
    let lines = Lines {
        angle,
        apart,
        anchor: place(x, y),
    };
    filled(alloc, &triangle, lines, Rule::OddCounts)
}

#[test]
fn a_triangle_at_angles(rt: HostRuntime) -> Result<(), Fail> {
    let aslant = filled_at(rt.alloc(), 45_000, 8192, 0, 0)?;
    let back = filled_at(rt.alloc(), 120_000, 9000, 10, 3)?;
    let down = filled_at(rt.alloc(), -30_500, 12_345, -7, 40)?;
    let up = filled_at(rt.alloc(), 90_000, 8192, 8, 0)?;
    let steep = "91,0 to 95,5; 45,0 to 73,27; 0,0 to 50,50; 0,45 to 27,73; 0,91 to 5,95; ";
    has_text(&rt, aslant.as_str(), steep);
    has_text(
        &rt,
        back.as_str(),
        "93,0 to 83,17; 52,0 to 0,91; 12,0 to 0,20; ",
    );
    has_text(&rt, down.as_str(), "0,36 to 61,0; 0,92 to 20,80; ");
    has_text(
        &rt,
        up.as_str(),
        "72,0 to 72,28; 40,0 to 40,60; 8,0 to 8,92; ",
    );
    Ok(())
}

// The next of a list of numbers at random.
fn next(state: u32) -> u32 {
    state.wrapping_mul(1_103_515_245).wrapping_add(12_345)
}

// The number from 0 to 255 that is taken from one of the list.
fn byte_of(state: u32) -> u8 {
    state.to_be_bytes()[1]
}

// 24 places at random.
fn scattered(alloc: Global) -> Result<Vec<(i16, i16)>, AllocError> {
    let mut state: u32 = 1;
    let mut places = Vec::new(alloc);
    for _ in 0..24 {
        let x = next(state);
        let y = next(x);
        places.push((i16::from(byte_of(x)), i16::from(byte_of(y))))?;
        state = y;
    }
    Ok(places)
}

fn wide(place: (i16, i16)) -> (i64, i64) {
    (i64::from(place.0), i64::from(place.1))
}

// Whether the edge from a to b is on the left of the middle of a grain.
fn is_left(a: (i64, i64), b: (i64, i64), x: i64, y: i64) -> bool {
    let (low, high) = if a.1 < b.1 { (a, b) } else { (b, a) };
    let up = y.wrapping_sub(low.1);
    let whole = high.1.wrapping_sub(low.1);
    let way = high.0.wrapping_sub(low.0).wrapping_mul(2).wrapping_mul(up);
    let middle = x
        .wrapping_mul(2)
        .wrapping_add(1)
        .wrapping_sub(low.0.wrapping_mul(2));
    low.1 <= y && y < high.1 && way < middle.wrapping_mul(whole)
}

// How many middles of grains on the lines have an odd number of edges on the left.
fn count_inside(places: &[(i16, i16)]) -> u64 {
    let mut count = 0u64;
    for line in 0..16i64 {
        for x in 0..256i64 {
            let mut is_inside = false;
            let mut last = places.last().copied().unwrap_or((0, 0));
            for place in places {
                if is_left(
                    wide(last),
                    wide(*place),
                    x,
                    line.wrapping_mul(16).wrapping_add(8),
                ) {
                    is_inside = !is_inside;
                }
                last = *place;
            }
            count = count.wrapping_add(u64::from(is_inside));
        }
    }
    count
}

// The spans of a random figure are as long as it has middles of grains inside.
#[test]
fn a_random_figure_by_counts(rt: HostRuntime) -> Result<(), Fail> {
    let places = scattered(rt.alloc())?;
    let mut buffer = Buffer::new(rt.alloc());
    for (x, y) in &places {
        reach(&mut buffer, *x, *y, false)?;
    }
    close(&mut buffer, false)?;
    let spans = spans_of(rt.alloc(), &buffer, solid(), Rule::OddCounts)?;
    let mut long = 0i128;
    for span in &spans {
        let way = span.to.spot().x.wrapping_sub(span.from.spot().x);
        long = long.wrapping_add(way);
    }
    assert_eq!(rt; spans.len(), 43);
    assert_eq!(rt; long, 1117);
    assert_eq!(rt; count_inside(&places), 1117);
    Ok(())
}
