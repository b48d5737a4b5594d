//! Areas among nine strokes, of which the second and the third, and four from the fifth on, are edges.
use crate::strokes::{WHOLE, stroke};
use areas::{Area, Areas, NextShape, ShapeWalk, Shapes, keep_areas};
use plot_page::Stroke;
use polygons::Rule;
use std::alloc::Global;
use std::process::Abort;
use std::rt::HostRuntime;
use std::test::Fail;

const SECOND: Area = Area {
    first: 1,
    end: 3,
    rule: Rule::OddCounts,
};

const FOURTH: Area = Area {
    first: 4,
    end: 8,
    rule: Rule::Winding,
};

#[test]
fn areas_of_all_strokes(rt: HostRuntime) -> Result<(), Fail> {
    let list = [SECOND, FOURTH];
    let areas = Areas::all(&list);
    assert_eq!(rt; areas.count(), 2);
    assert_eq!(rt; areas.edge_count(), 6);
    assert_eq!(rt; areas.most_edges(), 4);
    assert_eq!(rt; areas.beginning_at(4), Some(FOURTH));
    assert_eq!(rt; areas.beginning_at(0), None);
    Ok(())
}

// Whatever place areas are looked for at first, the same ones are found; and it is then that of the area, or of the next one.
#[test]
fn areas_near_places(rt: HostRuntime) -> Result<(), Fail> {
    let list = [SECOND, FOURTH];
    let areas = Areas::all(&list);
    for place in [0, 1, 2, 3, usize::MAX] {
        let mut near = place;
        assert_eq!(rt; areas.ending_at(2, &mut near), None);
        assert_eq!(rt; near, 0);
        near = place;
        assert_eq!(rt; areas.ending_at(3, &mut near), Some(SECOND));
        assert_eq!(rt; near, 0);
        near = place;
        assert_eq!(rt; areas.ending_at(8, &mut near), Some(FOURTH));
        assert_eq!(rt; near, 1);
        near = place;
        assert_eq!(rt; areas.ending_at(9, &mut near), None);
        assert_eq!(rt; near, 2);
    }
    Ok(())
}

#[test]
fn areas_between_strokes(rt: HostRuntime) -> Result<(), Fail> {
    let list = [SECOND, FOURTH];
    let areas = Areas::between(&list, 2, 9);
    assert_eq!(rt; areas.count(), 1);
    assert_eq!(rt; areas.edge_count(), 4);
    let mut near = 0;
    assert_eq!(rt; areas.ending_at(1, &mut near), None);
    assert_eq!(rt;
        areas.ending_at(6, &mut near).map(|area| area.first),
        Some(2)
    );
    assert_eq!(rt; Areas::between(&list, 1, 4).count(), 1);
    assert_eq!(rt; Areas::between(&list, 1, 5).count(), 2);
    assert_eq!(rt; Areas::none().most_edges(), 0);
    Ok(())
}

#[test]
fn areas_kept(rt: HostRuntime) -> Result<(), Fail> {
    for (at, end, wanted) in [
        (0, 9, "1 3 4 8"),
        (1, 5, "0 2 3 7"),
        (1, 4, "0 2"),
        (2, 9, "2 6"),
        (5, 9, ""),
    ] {
        let mut list = Vec::new(rt.alloc());
        list.push(SECOND)?;
        list.push(FOURTH)?;
        keep_areas(&mut list, at, end);
        let mut text = String::new(rt.alloc());
        for area in &list {
            if !text.is_empty() {
                text.push(' ')?;
            }
            write!(text, "{} {}", area.first, area.end)?;
        }
        assert_eq!(rt; text.as_str(), wanted);
    }
    Ok(())
}

// Nine strokes, told apart by their widths.
fn nine(alloc: Global) -> Result<Vec<Stroke>, Fail> {
    let mut strokes = Vec::new(alloc);
    for width in 0..9 {
        strokes.push(stroke(1, width, WHOLE, [0, 0, 16, 16])?)?;
    }
    Ok(strokes)
}

// The shapes that a walk comes to, each by the width of its first stroke, and of an area the rule and how many edges it has.
fn walked(alloc: Global, shapes: Shapes<'_>) -> Result<String, Fail> {
    let mut text = String::new(alloc);
    let mut walk = ShapeWalk::new(shapes);
    for _ in 0..20 {
        let Some(shape) = walk.next() else {
            return Ok(text);
        };
        let edges = edges_in(shape);
        match shape {
            NextShape::Stroke(stroke) => write!(text, "{} ", stroke.width)?,
            NextShape::Area([], _) => text.push('?')?,
            NextShape::Area([first, ..], Rule::Winding) => {
                write!(text, "{}w{edges} ", first.width)?
            }
            NextShape::Area([first, ..], Rule::OddCounts) => {
                write!(text, "{}o{edges} ", first.width)?
            }
        }
    }
    Err("more shapes than strokes".into())
}

fn edges_in(shape: NextShape<'_>) -> usize {
    match shape {
        NextShape::Stroke(_) => 0,
        NextShape::Area(edges, _) => edges.len(),
    }
}

// Fails unless a walk over these strokes comes to these shapes.
fn comes_to<'a>(
    rt: &impl Abort,
    alloc: Global,
    strokes: &'a [Stroke],
    areas: Areas<'a>,
    wanted: &str,
) -> Result<(), Fail> {
    let text = walked(alloc, Shapes { strokes, areas })?;
    assert_eq!(rt; text.as_str(), wanted);
    Ok(())
}

#[test]
fn shapes_one_after_another(rt: HostRuntime) -> Result<(), Fail> {
    let alloc = rt.alloc();
    let strokes = nine(alloc)?;
    let all = strokes.as_slice();
    let list = [SECOND, FOURTH];
    let areas = Areas::all(&list);
    comes_to(&rt, alloc, all, areas, "0 1o2 3 4w4 8 ")?;
    comes_to(&rt, alloc, all, Areas::none(), "0 1 2 3 4 5 6 7 8 ")?;
    let first = all.get(..2).ok_or("two strokes")?;
    comes_to(&rt, alloc, first, areas, "0 1o1 ")?;
    let six = all.get(..6).ok_or("six strokes")?;
    comes_to(&rt, alloc, six, areas, "0 1o2 3 4w2 ")?;
    let others = all.get(1..).ok_or("eight strokes")?;
    comes_to(
        &rt,
        alloc,
        others,
        Areas::between(&list, 1, 9),
        "1o2 3 4w4 8 ",
    )?;
    let last = all.get(2..).ok_or("seven strokes")?;
    comes_to(&rt, alloc, last, Areas::between(&list, 2, 9), "2 3 4w4 8 ")
}
