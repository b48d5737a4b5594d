//! Areas painted among strokes: the page of 64 by 64 plotter units, of 8 by 8 pixels at 127 dots per inch, whose centres are
//! at 4, 12, .. 60 units. Half of the least drawn width is 6 units there.
use crate::strokes::{WHOLE, dots, page, stroke};
use areas::{Area, Areas, Shapes};
use plot_page::{MOST_STROKES, PenSet, Stroke, Window};
use polygons::Rule;
use std::alloc::Global;
use std::process::Abort;
use std::rt::HostRuntime;
use std::test::Fail;
use stroke_raster::{Exact, Inker, Painter};

const SQUARE: [[i32; 2]; 4] = [[256, 256], [768, 256], [768, 768], [256, 768]];

const OUTER: [[i32; 2]; 4] = [[0, 0], [1024, 0], [1024, 1024], [0, 1024]];

const INNER: [[i32; 2]; 4] = [[384, 384], [640, 384], [640, 640], [384, 640]];

const TURNED: [[i32; 2]; 4] = [[384, 384], [384, 640], [640, 640], [640, 384]];

// Adds the edges of a closed polygon.
fn add(
    strokes: &mut Vec<Stroke>,
    pen: u8,
    window: Window,
    places: &[[i32; 2]],
) -> Result<(), Fail> {
    for at in 0..places.len() {
        let [ax, ay] = places[at];
        let [bx, by] = places[(at + 1) % places.len()];
        strokes.push(stroke(pen, 0, window, [ax, ay, bx, by])?)?;
    }
    Ok(())
}

// The pen of the stroke at a position as a letter, or a point for no stroke.
fn letter(strokes: &[Stroke], position: u32) -> char {
    if position == 0 || position as usize > strokes.len() {
        return '.';
    }
    let stroke = strokes[position as usize - 1];
    match stroke.pen {
        1 => '1',
        2 => '2',
        _ => '?',
    }
}

// The page with these shapes, painted as cells in bands of so many rows: the pen of each pixel.
fn painted(
    alloc: Global,
    shapes: Shapes<'_>,
    per_inch: u32,
    pens: PenSet,
    band_rows: u32,
) -> Result<String, Fail> {
    if shapes.strokes.len() > MOST_STROKES {
        return Err("too many strokes".into());
    }
    let (page, dots) = (page()?, dots(per_inch)?);
    let painter = Painter::of_shapes(alloc, shapes, page, dots, pens, band_rows, 0);
    let mut painter: Painter<'_> = painter.ok().ok_or("a painter")?;
    let mut gauge = Exact::new();
    let mut text = String::new(alloc);
    for _ in 0..5000 {
        let Some(band) = painter.next_band(&mut gauge) else {
            return Ok(text);
        };
        for i in 0..band.rows() {
            for &position in band.row(i) {
                text.push(letter(shapes.strokes, position))?;
            }
            text.push('\n')?;
        }
    }
    Err("more bands than rows".into())
}

// The same painted as bits: an `x` for each black pixel.
fn inked(
    alloc: Global,
    shapes: Shapes<'_>,
    per_inch: u32,
    pens: PenSet,
    band_rows: u32,
) -> Result<String, Fail> {
    if shapes.strokes.len() > MOST_STROKES {
        return Err("too many strokes".into());
    }
    let (page, dots) = (page()?, dots(per_inch)?);
    let columns = dots.columns(&page);
    let stride = (columns as usize + 7) / 8;
    let inker = Inker::of_shapes(alloc, shapes, page, dots, pens, band_rows, 0);
    let mut inker: Inker<'_> = inker.ok().ok_or("an inker")?;
    let mut gauge = Exact::new();
    let mut text = String::new(alloc);
    for _ in 0..5000 {
        if !inker.ink_next(&mut gauge) {
            return Ok(text);
        }
        for line in inker.bytes().chunks(stride.max(1)) {
            for column in 0..columns {
                let byte = line.get(column as usize / 8).copied().unwrap_or(0);
                let is_black = byte >> (7 - column % 8) & 1 == 1;
                text.push(if is_black { 'x' } else { '.' })?;
            }
            text.push('\n')?;
        }
    }
    Err("more bands than rows".into())
}

// Fails unless shapes are painted so, as cells and as bits, in bands of any height.
fn are_painted(
    rt: &impl Abort,
    alloc: Global,
    shapes: Shapes<'_>,
    per_inch: u32,
    pens: PenSet,
    wanted: &str,
) -> Result<(), Fail> {
    let mut black = String::new(alloc);
    for c in wanted.chars() {
        black.push(if c == '1' || c == '2' { 'x' } else { c })?;
    }
    for band_rows in [1, 3, 64] {
        let cells = painted(alloc, shapes, per_inch, pens, band_rows)?;
        assert_eq!(rt; cells.as_str(), wanted);
        let bits = inked(alloc, shapes, per_inch, pens, band_rows)?;
        assert_eq!(rt; bits.as_str(), black.as_str());
    }
    Ok(())
}

#[test]
fn a_square(rt: HostRuntime) -> Result<(), Fail> {
    let mut edges = Vec::new(rt.alloc());
    add(&mut edges, 1, WHOLE, &SQUARE)?;
    let list = [Area {
        first: 0,
        end: 4,
        rule: Rule::OddCounts,
    }];
    let shapes = Shapes {
        strokes: edges.as_slice(),
        areas: Areas::all(&list),
    };
    let wanted = "........\n.111111.\n.111111.\n.111111.\n.111111.\n.111111.\n.111111.\n........\n";
    are_painted(&rt, rt.alloc(), shapes, 127, PenSet::all(), wanted)
}

#[test]
fn a_square_in_a_window(rt: HostRuntime) -> Result<(), Fail> {
    let quarter = Window {
        x0: 0,
        y0: 0,
        x1: 512,
        y1: 512,
    };
    let mut edges = Vec::new(rt.alloc());
    add(&mut edges, 1, quarter, &SQUARE)?;
    let list = [Area {
        first: 0,
        end: 4,
        rule: Rule::Winding,
    }];
    let shapes = Shapes {
        strokes: edges.as_slice(),
        areas: Areas::all(&list),
    };
    let wanted = "........\n........\n........\n........\n.111....\n.111....\n.111....\n........\n";
    are_painted(&rt, rt.alloc(), shapes, 127, PenSet::all(), wanted)
}

// A square of pen 2, a line of pen 1 over it, and a sliver without height that a later line hides.
#[test]
fn areas_between_strokes(rt: HostRuntime) -> Result<(), Fail> {
    let mut strokes = Vec::new(rt.alloc());
    add(&mut strokes, 2, WHOLE, &SQUARE)?;
    strokes.push(stroke(1, 224, WHOLE, [0, 448, 1024, 448])?)?;
    let list = [Area {
        first: 0,
        end: 4,
        rule: Rule::OddCounts,
    }];
    let shapes = Shapes {
        strokes: strokes.as_slice(),
        areas: Areas::all(&list),
    };
    let wanted = "........\n.222222.\n.222222.\n.222222.\n11111111\n.222222.\n.222222.\n........\n";
    are_painted(&rt, rt.alloc(), shapes, 127, PenSet::all(), wanted)?;
    let second = PenSet::none().with(2);
    let alone = "........\n.222222.\n.222222.\n.222222.\n.222222.\n.222222.\n.222222.\n........\n";
    are_painted(&rt, rt.alloc(), shapes, 127, second, alone)
}

#[test]
fn a_sliver(rt: HostRuntime) -> Result<(), Fail> {
    let mut edges = Vec::new(rt.alloc());
    add(
        &mut edges,
        1,
        WHOLE,
        &[[0, 480], [1024, 480], [1024, 480], [0, 480]],
    )?;
    let sliver = [Area {
        first: 0,
        end: 4,
        rule: Rule::OddCounts,
    }];
    let shapes = Shapes {
        strokes: edges.as_slice(),
        areas: Areas::all(&sliver),
    };
    let wanted = "........\n........\n........\n11111111\n11111111\n........\n........\n........\n";
    are_painted(&rt, rt.alloc(), shapes, 127, PenSet::all(), wanted)
}

#[test]
fn a_triangle(rt: HostRuntime) -> Result<(), Fail> {
    let mut edges = Vec::new(rt.alloc());
    add(&mut edges, 1, WHOLE, &[[0, 0], [1024, 0], [0, 1024]])?;
    let triangle = [Area {
        first: 0,
        end: 3,
        rule: Rule::OddCounts,
    }];
    let shapes = Shapes {
        strokes: edges.as_slice(),
        areas: Areas::all(&triangle),
    };
    let wanted = "11......\n111.....\n1111....\n11111...\n111111..\n1111111.\n11111111\n11111111\n";
    are_painted(&rt, rt.alloc(), shapes, 127, PenSet::all(), wanted)
}

// The rows of the page at 508 dots per inch with a hole, which are 32, of as many pixels each.
fn with_hole(alloc: Global, has_hole: bool) -> Result<String, Fail> {
    let mut text = String::new(alloc);
    for row in 0..32 {
        for column in 0..32 {
            let is_hole = has_hole && 13 <= row && row <= 18 && 13 <= column && column <= 18;
            text.push(if is_hole { '.' } else { '1' })?;
        }
        text.push('\n')?;
    }
    Ok(text)
}

#[test]
fn a_hole_by_both_rules(rt: HostRuntime) -> Result<(), Fail> {
    for (inner, rule, has_hole) in [
        (INNER, Rule::OddCounts, true),
        (TURNED, Rule::Winding, true),
        (INNER, Rule::Winding, false),
    ] {
        let mut edges = Vec::new(rt.alloc());
        add(&mut edges, 1, WHOLE, &OUTER)?;
        add(&mut edges, 1, WHOLE, &inner)?;
        let list = [Area {
            first: 0,
            end: 8,
            rule,
        }];
        let shapes = Shapes {
            strokes: edges.as_slice(),
            areas: Areas::all(&list),
        };
        let wanted = with_hole(rt.alloc(), has_hole)?;
        are_painted(&rt, rt.alloc(), shapes, 508, PenSet::all(), wanted.as_str())?;
    }
    Ok(())
}

// Of two squares the second is on the second sheet, which begins after four strokes.
#[test]
fn areas_of_a_sheet(rt: HostRuntime) -> Result<(), Fail> {
    let mut strokes = Vec::new(rt.alloc());
    add(&mut strokes, 2, WHOLE, &OUTER)?;
    add(&mut strokes, 1, WHOLE, &SQUARE)?;
    let list = [
        Area {
            first: 0,
            end: 4,
            rule: Rule::OddCounts,
        },
        Area {
            first: 4,
            end: 8,
            rule: Rule::OddCounts,
        },
    ];
    let shapes = Shapes {
        strokes: &strokes.as_slice()[4.min(strokes.len())..],
        areas: Areas::between(&list, 4, 8),
    };
    assert_eq!(rt; shapes.areas.count(), 1);
    assert_eq!(rt; shapes.stroke_count(), 0);
    assert_eq!(rt; shapes.areas.most_edges(), 4);
    assert!(rt; shapes.areas.beginning_at(0).is_some());
    let mut near = 0;
    assert!(rt; shapes.areas.ending_at(4, &mut near).is_some());
    assert!(rt; shapes.areas.ending_at(8, &mut near).is_none());
    let wanted = "........\n.111111.\n.111111.\n.111111.\n.111111.\n.111111.\n.111111.\n........\n";
    are_painted(&rt, rt.alloc(), shapes, 127, PenSet::all(), wanted)
}
