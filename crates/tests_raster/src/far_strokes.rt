//! Strokes that lead far past the page, and pages as long as a roll, against the test of a pixel in numbers of 128 bits.
use crate::strokes::{BLACK, dots, inked, inker, is_near, next_band, packed};
use plot_page::{Dots, MOST_STROKES, Page, PenSet, Stroke, Window};
use std::alloc::Global;
use std::process::Abort;
use std::test::Fail;
use stroke_raster::{Exact, Painter};

// How far an end may be.
const FAR: i32 = 134_217_712;

// The window of all pages.
const ALL: Window = Window {
    x0: 0,
    y0: 0,
    x1: 8_388_608,
    y1: 8_388_608,
};

fn roll(width: u32, height: u32) -> Result<Page, Fail> {
    Ok(Page::roll(width, height, 0, 0).ok_or("a page")?)
}

fn far_stroke(width: u32, window: Window, ends: [i32; 4]) -> Result<Stroke, Fail> {
    let [ax, ay, bx, by] = ends;
    Ok(Stroke::far(1, BLACK, width, window, ax, ay, bx, by).ok_or("a stroke")?)
}

// A place, or a way, in grains divided by the resolution.
#[derive(Clone, Copy, Drop)]
struct Wide {
    x: i128,
    y: i128,
}

fn sum(a: i128, b: i128) -> i128 {
    a.wrapping_add(b)
}

fn product(a: i128, b: i128) -> i128 {
    a.wrapping_mul(b)
}

fn way(a: Wide, b: Wide) -> Wide {
    Wide {
        x: b.x.wrapping_sub(a.x),
        y: b.y.wrapping_sub(a.y),
    }
}

fn dot(v: Wide, w: Wide) -> i128 {
    sum(product(v.x, w.x), product(v.y, w.y))
}

// Whether the double of a number, squared, is within a limit.
fn is_root(z: i128, limit: i128) -> bool {
    let double = product(2, z);
    double
        .checked_mul(double)
        .is_some_and(|square| square <= limit)
}

// Whether a place is within half of a width of a stroke.
fn has_place(a: Wide, b: Wide, width: i128, p: Wide) -> bool {
    let reach = product(width, width);
    let (v, w) = (way(a, b), way(a, p));
    if dot(v, w) <= 0 {
        return product(4, dot(w, w)) <= reach;
    }
    let past = way(b, p);
    if dot(v, w) >= dot(v, v) {
        return product(4, dot(past, past)) <= reach;
    }
    let cross = product(v.x, w.y).wrapping_sub(product(v.y, w.x));
    is_root(cross, product(reach, dot(v, v)))
}

// Whether a stroke covers a pixel.
fn is_covered(stroke: &Stroke, page: &Page, dots: Dots, row: u32, column: u32) -> bool {
    let r = i128::from(dots.per_inch());
    let at = |x: i32, y: i32| Wide {
        x: product(r, i128::from(x)),
        y: product(r, i128::from(y)),
    };
    let half = |i: u32| product(8128, sum(1, product(2, i128::from(i))));
    let top = product(r, product(16, i128::from(page.height)));
    let p = Wide {
        x: half(column),
        y: top.wrapping_sub(half(row)),
    };
    let (low, high) = (
        at(stroke.window.x0, stroke.window.y0),
        at(stroke.window.x1, stroke.window.y1),
    );
    let width = product(r, i128::from(stroke.width)).max(24384);
    low.x <= p.x
        && p.x <= high.x
        && low.y <= p.y
        && p.y <= high.y
        && has_place(at(stroke.ax, stroke.ay), at(stroke.bx, stroke.by), width, p)
}

// The cells of a page, each the position of the last stroke that covers it, or 0, and how many are not 0.
fn cells_by_numbers(
    rt: &impl Abort,
    alloc: Global,
    strokes: &[Stroke],
    page: &Page,
    dots: Dots,
) -> Result<(Vec<u32>, u32), Fail> {
    let mut cells = Vec::new(alloc);
    let mut count = 0u32;
    for row in 0..dots.rows(page) {
        for column in 0..dots.columns(page) {
            let mut cell = 0u32;
            let mut position = 0u32;
            for stroke in strokes {
                position = position.wrapping_add(1);
                let is_covered = is_covered(stroke, page, dots, row, column);
                assert!(rt;
                    is_covered == is_near(stroke, page, dots, row, column),
                    "{row} {column}"
                );
                if is_covered {
                    cell = position;
                }
            }
            count = count.wrapping_add((cell != 0) as u32);
            cells.push(cell)?;
        }
    }
    Ok((cells, count))
}

// The cells of a page as a painter has them.
fn painted(
    alloc: Global,
    strokes: &[Stroke],
    page: &Page,
    dots: Dots,
    band_rows: u32,
) -> Result<Vec<u32>, Fail> {
    if strokes.len() > MOST_STROKES {
        return Err("too many strokes".into());
    }
    let painter = Painter::new(alloc, strokes, *page, dots, PenSet::all(), band_rows, 0);
    let mut painter = painter.ok().ok_or("a painter")?;
    let mut gauge = Exact::new();
    let mut cells = Vec::new(alloc);
    for _ in 0..6000 {
        let Some(band) = next_band(&mut painter, &mut gauge) else {
            return Ok(cells);
        };
        for i in 0..band.rows() {
            cells.extend_from_slice(band.row(i))?;
        }
    }
    Err("more bands than rows".into())
}

// The rows of a page as an inker has them, from a row on.
fn inked_rows(
    alloc: Global,
    strokes: &[Stroke],
    page: &Page,
    dots: Dots,
    band_rows: u32,
) -> Result<Vec<u8>, Fail> {
    let mut inker = inker(alloc, strokes, *page, dots, PenSet::all(), band_rows, 0)?;
    let mut gauge = Exact::new();
    let mut bytes = Vec::new(alloc);
    for _ in 0..6000 {
        match inked(&mut inker, &mut gauge) {
            Some(band) => bytes.extend_from_slice(band)?,
            None => return Ok(bytes),
        }
    }
    Err("more bands than rows".into())
}

// Fails unless strokes are painted as the test of a pixel says, and have so many pixels at least.
fn is_as_defined(
    rt: &impl Abort,
    alloc: Global,
    strokes: &[Stroke],
    page: &Page,
    resolution: u32,
    least: u32,
) -> Result<(), Fail> {
    let dots = dots(resolution)?;
    let (wanted, count) = cells_by_numbers(rt, alloc, strokes, page, dots)?;
    assert!(rt; least <= count, "{count}");
    let bits = packed(alloc, &wanted, dots.columns(page))?;
    for band_rows in [1, 3, 4096] {
        let cells = painted(alloc, strokes, page, dots, band_rows)?;
        assert!(rt;
            cells.as_slice() == wanted.as_slice(),
            "{resolution} {band_rows}"
        );
        let rows = inked_rows(alloc, strokes, page, dots, band_rows)?;
        assert!(rt;
            rows.as_slice() == bits.as_slice(),
            "{resolution} {band_rows}"
        );
    }
    Ok(())
}

// Each pixel of the diagonal is covered, and the two beside it, whose centres are 0.71 pixels away.
const DIAGONAL: [u8; 8] = [
    0b0000_0011,
    0b0000_0111,
    0b0000_1110,
    0b0001_1100,
    0b0011_1000,
    0b0111_0000,
    0b1110_0000,
    0b1100_0000,
];

#[test]
fn a_diagonal_through_a_small_page(rt: HostRuntime) -> Result<(), Fail> {
    let page = roll(64, 64)?;
    let upward = far_stroke(0, ALL, [-FAR, -FAR, FAR, FAR])?;
    let downward = far_stroke(0, ALL, [FAR, FAR, -FAR, -FAR])?;
    for stroke in [upward, downward] {
        let rows = inked_rows(rt.alloc(), &[stroke], &page, dots(127)?, 3)?;
        assert!(rt; rows.as_slice() == DIAGONAL.as_slice());
        is_as_defined(&rt, rt.alloc(), &[stroke], &page, 127, 22)?;
        is_as_defined(&rt, rt.alloc(), &[stroke], &page, 1200, 100)?;
    }
    Ok(())
}

// Through a place of the page, and as far as there is room on both sides.
fn through(width: u32, place: [i32; 2], way: [i32; 2]) -> Result<Stroke, Fail> {
    let ([x, y], [dx, dy]) = (place, way);
    let at = |z: i32, d: i32| z.wrapping_add(d).clamp(-FAR, FAR);
    let ends = [
        at(x, dx.wrapping_neg()),
        at(y, dy.wrapping_neg()),
        at(x, dx),
        at(y, dy),
    ];
    far_stroke(width, ALL, ends)
}

#[test]
fn all_directions(rt: HostRuntime) -> Result<(), Fail> {
    let page = roll(100, 64)?;
    let ways = [
        [FAR, 0],
        [FAR, 300],
        [FAR, -4000],
        [130_000_000, 70_000_000],
        [FAR, -FAR],
        [-50_000_000, 120_000_000],
        [2_000_000, -FAR],
        [7, FAR],
        [0, -FAR],
        [1_048_576, 90],
        [1_048_577, -90],
        [400, 1_048_580],
    ];
    for way in ways {
        let mut strokes = Vec::new(rt.alloc());
        strokes.push(through(0, [800, 300], way)?)?;
        strokes.push(through(224, [500, 700], way)?)?;
        strokes.push(through(1, [1700, 1100], way)?)?;
        is_as_defined(&rt, rt.alloc(), &strokes, &page, 300, 19)?;
    }
    Ok(())
}

// An end on the page, rounded, and one far away; the end may be the first or the last.
#[test]
fn ends_on_the_page(rt: HostRuntime) -> Result<(), Fail> {
    let page = roll(100, 64)?;
    let mut strokes = Vec::new(rt.alloc());
    for away in [[FAR, 500], [-FAR, -FAR], [90, FAR], [-3_000_000, 40_000]] {
        let [x, y] = away;
        strokes.push(far_stroke(400, ALL, [810, 512, x, y])?)?;
        strokes.push(far_stroke(200, ALL, [x, y, 300, 300])?)?;
    }
    for stroke in &strokes {
        is_as_defined(&rt, rt.alloc(), &[*stroke], &page, 600, 100)?;
    }
    is_as_defined(&rt, rt.alloc(), &strokes, &page, 600, 1000)
}

// The centre of the page's lower left pixel, of 128 grains, is at (64, 64), and 96 grains are three quarters of a pixel.
// A stroke that passes it at that distance touches it, and no other; one that passes a grain farther away does not.
#[test]
fn one_pixel_grazed(rt: HostRuntime) -> Result<(), Fail> {
    let page = roll(64, 64)?;
    let corner = Window {
        x0: 0,
        y0: 0,
        x1: 100,
        y1: 100,
    };
    for (ends, count) in [
        ([-FAR, -32, FAR, -32], 1),
        ([FAR, -33, -FAR, -33], 0),
        ([160, FAR, 160, -FAR], 1),
        ([161, -FAR, 161, FAR], 0),
        ([-FAR, 100_000, -32, 64], 1),
        ([-FAR, -100_000, -33, 64], 0),
    ] {
        let stroke = far_stroke(0, corner, ends)?;
        let (_, covered) = cells_by_numbers(&rt, rt.alloc(), &[stroke], &page, dots(127)?)?;
        assert_eq!(rt; covered, count);
        is_as_defined(&rt, rt.alloc(), &[stroke], &page, 127, 0)?;
    }
    Ok(())
}

#[test]
fn a_roll_in_one_row(rt: HostRuntime) -> Result<(), Fail> {
    let page = roll(524_288, 64)?;
    let level = far_stroke(16, ALL, [-FAR, 5000, FAR, 5016])?;
    let low = far_stroke(16, ALL, [-FAR, 500, FAR, 516])?;
    let cut = far_stroke(12_800, ALL, [4_000_000, 500, FAR, 90_000])?;
    is_as_defined(&rt, rt.alloc(), &[level, low, cut], &page, 10, 5160)
}

#[test]
fn a_roll_in_a_few_rows(rt: HostRuntime) -> Result<(), Fail> {
    let page = roll(524_288, 2048)?;
    let level = far_stroke(16, ALL, [-FAR, 5000, FAR, 5016])?;
    let along = far_stroke(400, ALL, [0, 0, 8_388_608, 32_768])?;
    let steep = far_stroke(12_800, ALL, [8_000_000, -FAR, 8_200_000, FAR])?;
    is_as_defined(&rt, rt.alloc(), &[level, along, steep], &page, 10, 10_000)
}

// Rows of 0.2 m, 13.1 m of them, in which the strokes' edges lead from row to row.
#[test]
fn a_roll_in_many_rows(rt: HostRuntime) -> Result<(), Fail> {
    let page = roll(8_192, 524_288)?;
    let falling = far_stroke(224, ALL, [0, 8_388_608, 131_072, 0])?;
    let rising = far_stroke(224, ALL, [-FAR, -FAR, FAR, FAR])?;
    is_as_defined(&rt, rt.alloc(), &[falling, rising], &page, 10, 5160)
}

// The row whose centre is three quarters of a pixel below the stroke, where it begins to leave it: at column 99,077.
#[test]
fn a_row_left_far_away(rt: HostRuntime) -> Result<(), Fail> {
    let page = roll(524_288, 400)?;
    let level = far_stroke(0, ALL, [-FAR, 5000, FAR, 5016])?;
    let dots = dots(1200)?;
    let strokes = [level];
    let mut inker = inker(rt.alloc(), &strokes, page, dots, PenSet::all(), 3, 102)?;
    let mut gauge = Exact::new();
    let rows = inked(&mut inker, &mut gauge).ok_or("a band")?;
    let mut column = 0u32;
    let mut last = 0u32;
    for byte in rows.iter().skip(77405).take(77405) {
        for bit in [128u8, 64, 32, 16, 8, 4, 2, 1] {
            if *byte & bit != 0 {
                last = column;
            }
            column = column.wrapping_add(1);
        }
    }
    for above in [0u32, 1, 2] {
        let row = above.wrapping_add(102);
        for at in [0, 99_000, 99_076, 99_077, 99_078, 99_079, 619_237] {
            let is_black = rows
                .get((above as usize).wrapping_mul(77405).wrapping_add(at / 8))
                .is_some_and(|byte| byte >> (7 - at % 8) & 1 == 1);
            assert!(rt;
                is_black == is_covered(&level, &page, dots, row, at as u32),
                "{row} {at}"
            );
        }
    }
    assert!(rt; 99_000 < last && last < 99_100, "{last}");
    Ok(())
}
