// Areas: the columns of rows that are inside them.
use crate::strokes::{WHOLE, dots, page, stroke};
use areas::AreaSweep;
use plot_page::{Dots, Stroke};
use polygons::Rule;
use std::alloc::Global;
use std::process::Abort;
use std::test::Fail;

// No height of a row is farther from 0.
const FARTHEST: i64 = 1 << 32;

const SQUARE: [[i32; 2]; 4] = [[256, 256], [768, 256], [768, 768], [256, 768]];

const OUTER: [[i32; 2]; 4] = [[0, 0], [1024, 0], [1024, 1024], [0, 1024]];

const INNER: [[i32; 2]; 4] = [[384, 384], [640, 384], [640, 640], [384, 640]];

const INNER_TURNED: [[i32; 2]; 4] = [[384, 384], [384, 640], [640, 640], [640, 384]];
// At 127 dots its places are as high as centres of pixels.
const STAR: [[i32; 2]; 5] = [[512, 960], [220, 64], [1000, 704], [24, 704], [804, 64]];

// At 127 dots its left side is less than a step right of the centre of the first pixel of the lowest row.
const BESIDE: [[i32; 2]; 3] = [[61, 0], [1000, 0], [108, 1001]];

// Adds the edges of a closed polygon.
fn add(edges: &mut Vec<Stroke>, places: &[[i32; 2]]) -> Result<(), Fail> {
    for at in 0..places.len() {
        let [ax, ay] = places[at];
        let [bx, by] = places[(at + 1) % places.len()];
        edges.push(stroke(1, 0, WHOLE, [ax, ay, bx, by])?)?;
    }
    Ok(())
}

// The height of the centres of a row, in steps.
fn height_of(per_inch: u32, row: u32) -> i64 {
    1024 * i64::from(per_inch) - (2 * i64::from(row) + 1) * 8128
}

// Room for an area with these edges.
fn room_for(alloc: Global, edges: &[Stroke]) -> Result<AreaSweep, Fail> {
    if edges.len() > 100 {
        return Err("an area of too many edges".into());
    }
    Ok(AreaSweep::new(alloc, edges.len())?)
}

// Whether each range that was found has a column, and all of them are among so many.
fn are_ranges(area: &AreaSweep, columns: u32) -> bool {
    let mut are_ranges = true;
    for range in area.ranges() {
        are_ranges &= range.first < range.end && range.end <= columns;
    }
    are_ranges
}

// Whether a column is in the ranges that were found.
fn is_found(area: &AreaSweep, column: u32) -> bool {
    let mut is_found = false;
    for range in area.ranges() {
        is_found |= range.first <= column && column < range.end;
    }
    is_found
}

// An area to sweep: its edges, which of the places between them are inside, and how many columns a row has.
#[derive(Clone, Copy)]
struct Swept<'a> {
    edges: &'a [Stroke],
    rule: Rule,
    dots: Dots,
    columns: u32,
}

// Adds a line for each of so many rows of an area, from the row at height `top` down: an `x` for each pixel that is inside, and a
// `.` for each other one.
fn sweep_over(
    text: &mut String,
    area: &mut AreaSweep,
    swept: &Swept<'_>,
    top: i64,
    rows: u32,
) -> Result<(), Fail> {
    let dots = swept.dots;
    if !area.has_room_for(swept.edges.len()) || top < -FARTHEST || top > FARTHEST {
        return Err("rows that may not be asked for".into());
    }
    area.begin(swept.edges, dots, top - 16256 * i64::from(rows), top);
    let mut height = top;
    for _ in 0..rows {
        if height < -FARTHEST || height > FARTHEST {
            return Err("a row that may not be asked for".into());
        }
        area.next_row(swept.rule, dots, height, swept.columns);
        if !are_ranges(area, swept.columns) {
            return Err("no ranges of columns".into());
        }
        for column in 0..swept.columns {
            text.push(if is_found(area, column) { 'x' } else { '.' })?;
        }
        text.push('\n')?;
        height -= 16256;
    }
    Ok(())
}

// Whether the centre of a column is inside, by the rule itself and by fractions that are not rounded.
fn is_inside(rule: Rule, edges: &[Stroke], per_inch: u32, height: i64, column: u32) -> bool {
    let r = i128::from(per_inch);
    let (x, y) = ((2 * i128::from(column) + 1) * 8128, i128::from(height));
    let (mut upward, mut downward) = (0u32, 0u32);
    for edge in edges {
        let (ax, ay) = (
            r.wrapping_mul(i128::from(edge.ax)),
            r.wrapping_mul(i128::from(edge.ay)),
        );
        let (bx, by) = (
            r.wrapping_mul(i128::from(edge.bx)),
            r.wrapping_mul(i128::from(edge.by)),
        );
        let left = bx.wrapping_sub(ax).wrapping_mul(y.wrapping_sub(ay));
        let right = x.wrapping_sub(ax).wrapping_mul(by.wrapping_sub(ay));
        if ay <= y && y < by && left <= right {
            upward = upward.wrapping_add(1);
        }
        if by <= y && y < ay && left >= right {
            downward = downward.wrapping_add(1);
        }
    }
    match rule {
        Rule::OddCounts => upward.wrapping_add(downward) % 2 == 1,
        Rule::Winding => upward != downward,
    }
}

// The rows of the page with an area, which is swept so many rows at a time.
fn drawn(
    alloc: Global,
    rule: Rule,
    edges: &[Stroke],
    per_inch: u32,
    at_a_time: u32,
) -> Result<String, Fail> {
    let dots = dots(per_inch)?;
    let page = page()?;
    let columns = dots.columns(&page);
    let mut area = room_for(alloc, edges)?;
    let mut text = String::new(alloc);
    let rows = dots.rows(&page);
    for row in 0..rows {
        if row % at_a_time.max(1) == 0 {
            let swept = Swept {
                edges,
                rule,
                dots,
                columns,
            };
            let count = at_a_time.min(rows - row);
            sweep_over(
                &mut text,
                &mut area,
                &swept,
                height_of(per_inch, row),
                count,
            )?;
        }
    }
    Ok(text)
}

// Fails unless an area is drawn so.
fn is_drawn(
    rt: &impl Abort,
    alloc: Global,
    rule: Rule,
    edges: &[Stroke],
    wanted: &str,
) -> Result<(), Fail> {
    assert_eq!(rt; drawn(alloc, rule, edges, 127, 1)?.as_str(), wanted);
    assert_eq!(rt; drawn(alloc, rule, edges, 127, 8)?.as_str(), wanted);
    Ok(())
}

// At 127 dots a pixel is 128 grains. The left and the lower side are inside, the others are not.
#[test]
fn a_square(rt: HostRuntime) -> Result<(), Fail> {
    let mut edges = Vec::new(rt.alloc());
    add(&mut edges, &SQUARE)?;
    let wanted = "........\n........\n..xxxx..\n..xxxx..\n..xxxx..\n..xxxx..\n........\n........\n";
    is_drawn(&rt, rt.alloc(), Rule::OddCounts, &edges, wanted)?;
    is_drawn(&rt, rt.alloc(), Rule::Winding, &edges, wanted)
}

#[test]
fn a_hole_by_both_rules(rt: HostRuntime) -> Result<(), Fail> {
    let mut edges = Vec::new(rt.alloc());
    add(&mut edges, &OUTER)?;
    add(&mut edges, &INNER)?;
    let hole = "xxxxxxxx\nxxxxxxxx\nxxxxxxxx\nxxx..xxx\nxxx..xxx\nxxxxxxxx\nxxxxxxxx\nxxxxxxxx\n";
    let whole = "xxxxxxxx\nxxxxxxxx\nxxxxxxxx\nxxxxxxxx\nxxxxxxxx\nxxxxxxxx\nxxxxxxxx\nxxxxxxxx\n";
    is_drawn(&rt, rt.alloc(), Rule::OddCounts, &edges, hole)?;
    is_drawn(&rt, rt.alloc(), Rule::Winding, &edges, whole)?;
    edges.clear();
    add(&mut edges, &OUTER)?;
    add(&mut edges, &INNER_TURNED)?;
    is_drawn(&rt, rt.alloc(), Rule::Winding, &edges, hole)
}

// The rows of the page by the rule itself.
fn exact(alloc: Global, rule: Rule, edges: &[Stroke], per_inch: u32) -> Result<String, Fail> {
    let page = page()?;
    let dots = dots(per_inch)?;
    let mut text = String::new(alloc);
    for row in 0..dots.rows(&page) {
        let height = height_of(per_inch, row);
        for column in 0..dots.columns(&page) {
            let is_inside = is_inside(rule, edges, per_inch, height, column);
            text.push(if is_inside { 'x' } else { '.' })?;
        }
        text.push('\n')?;
    }
    Ok(text)
}

// Each column of each row of a polygon, by both rules, against the rule itself, for sweeps of one row, of a few, and of all.
fn is_exact(
    rt: &impl Abort,
    alloc: Global,
    places: &[[i32; 2]],
    per_inch: u32,
) -> Result<(), Fail> {
    let mut edges = Vec::new(alloc);
    add(&mut edges, places)?;
    for rule in [Rule::OddCounts, Rule::Winding] {
        let wanted = exact(alloc, rule, &edges, per_inch)?;
        for at_a_time in [1, 3, 1000] {
            let found = drawn(alloc, rule, &edges, per_inch, at_a_time)?;
            assert_eq!(rt; found.as_str(), wanted.as_str());
        }
    }
    Ok(())
}

#[test]
fn a_star_column_by_column(rt: HostRuntime) -> Result<(), Fail> {
    for per_inch in [10, 127, 333, 1200] {
        is_exact(&rt, rt.alloc(), &STAR, per_inch)?;
    }
    Ok(())
}

#[test]
fn a_side_beside_a_centre(rt: HostRuntime) -> Result<(), Fail> {
    is_exact(&rt, rt.alloc(), &BESIDE, 127)
}
