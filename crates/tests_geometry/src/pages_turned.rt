//! A page of 64 by 128 plotter units, 1024 by 2048 grains, and what is on it, turned.
ghost use Rattle.labels.specs.Labels.{IsNear};

use labels::{Label, Line, Place};
use plot_page::{Colour, Page, PenSet, Stroke, Window};
use std::alloc::Global;
use std::test::Fail;
use turning::{Turn, are_turnable, turn_labels, turn_strokes, turned_page};

const COLOUR: Colour = Colour {
    red: 9,
    green: 8,
    blue: 7,
};

// The page after each turn: its sides; and a stroke from (100, 300) to (100, 2000) in a window from (10, 20) to (210, 620).
const TURNED: [(Turn, [u32; 2], [i32; 4], [i32; 4]); 4] = [
    (
        Turn::None,
        [64, 128],
        [100, 300, 100, 2000],
        [10, 20, 210, 620],
    ),
    (
        Turn::Quarter,
        [128, 64],
        [1748, 100, 48, 100],
        [1428, 10, 2028, 210],
    ),
    (
        Turn::Half,
        [64, 128],
        [924, 1748, 924, 48],
        [814, 1428, 1014, 2028],
    ),
    (
        Turn::ThreeQuarters,
        [128, 64],
        [300, 924, 2000, 924],
        [20, 814, 620, 1014],
    ),
];

fn tall() -> Result<Page, Fail> {
    Ok(Page::new(64, 128, 10, 20)?)
}

// A stroke of a pen between two places.
fn stroke(pen: u8, ends: [i32; 4]) -> Result<Stroke, Fail> {
    let [ax, ay, bx, by] = ends;
    let window = Window {
        x0: 10,
        y0: 20,
        x1: 210,
        y1: 620,
    };
    Ok(Stroke::far(pen, COLOUR, 40, window, ax, ay, bx, by).ok_or("no stroke")?)
}

fn ends_of(stroke: &Stroke) -> [i32; 4] {
    [stroke.ax, stroke.ay, stroke.bx, stroke.by]
}

fn corners_of(window: Window) -> [i32; 4] {
    [window.x0, window.y0, window.x1, window.y1]
}

#[test]
fn pages_on_their_sides(rt: HostRuntime) -> Result<(), Fail> {
    for (turn, sides, _, _) in TURNED {
        let page = turned_page(turn, &tall()?);
        assert_eq!(rt; [page.width, page.height], sides);
        assert_eq!(rt; [page.left, page.below], [10, 20]);
    }
    Ok(())
}

#[test]
fn strokes_turned(rt: HostRuntime) -> Result<(), Fail> {
    let page = tall()?;
    let pens = PenSet::none().with(2);
    for (turn, _, ends, corners) in TURNED {
        let mut strokes = [
            stroke(2, [100, 300, 100, 2000])?,
            stroke(3, [0, 0, -134_217_712, -134_217_712])?,
        ];
        if !are_turnable(&strokes, &pens, turn, &page) {
            return Err("strokes that cannot be turned".into());
        }
        turn_strokes(&mut strokes, &pens, turn, &page);
        let [turned, other] = strokes;
        assert_eq!(rt;
            (ends_of(&turned), corners_of(turned.window)),
            (ends, corners)
        );
        assert_eq!(rt; (turned.pen, turned.colour, turned.width), (2, COLOUR, 40));
        assert_eq!(rt; ends_of(&other), [0, 0, -134_217_712, -134_217_712]);
        assert_eq!(rt; corners_of(other.window), [10, 20, 210, 620]);
    }
    Ok(())
}

// Which turns a stroke to a place can take: of none, a quarter, a half and three quarters.
const FAR: [([i32; 2], [bool; 4]); 5] = [
    ([134_217_712, 134_217_712], [true; 4]),
    ([0, -134_215_664], [true; 4]),
    ([0, -134_215_665], [true, false, false, true]),
    ([-134_216_688, 0], [true; 4]),
    ([-134_216_689, 0], [true, true, false, false]),
];

#[test]
fn strokes_too_far_away(rt: HostRuntime) -> Result<(), Fail> {
    let page = tall()?;
    for ([x, y], wanted) in FAR {
        let strokes = [stroke(2, [0, 0, 10, 10])?, stroke(2, [0, 0, x, y])?];
        let found = wanted_turns(&strokes, &page);
        assert_eq!(rt; found, wanted);
    }
    Ok(())
}

fn wanted_turns(strokes: &[Stroke], page: &Page) -> [bool; 4] {
    let pens = PenSet::all();
    [
        are_turnable(strokes, &pens, Turn::None, page),
        are_turnable(strokes, &pens, Turn::Quarter, page),
        are_turnable(strokes, &pens, Turn::Half, page),
        are_turnable(strokes, &pens, Turn::ThreeQuarters, page),
    ]
}

// A window that reaches over the edge of the page cannot be turned, unless its stroke is of a pen that draws nothing.
#[test]
fn windows_over_the_edge(rt: HostRuntime) -> Result<(), Fail> {
    let page = Page::new(64, 64, 0, 0)?;
    let wide = Window {
        x0: 0,
        y0: 0,
        x1: 1025,
        y1: 1024,
    };
    let stroke = Stroke::new(5, COLOUR, 40, wide, 0, 0, 0, 0).ok_or("no stroke")?;
    assert_eq!(rt; wanted_turns(&[stroke], &page), [true, true, false, false]);
    let others = PenSet::none().with(6);
    assert!(rt; are_turnable(&[stroke], &others, Turn::Half, &page));
    Ok(())
}

// A label of one letter, which is 32 grains wide and 48 high, at the lower left corner of the page; 134,217,712 grains left of it
// another one ends.
fn label(alloc: Global) -> Result<Label, Fail> {
    let mut line = Line::new(alloc, Place { x: 0, y: 0 }, Place { x: 0, y: 48 });
    line.push(65, Place { x: 32, y: 0 })?;
    let mut far = Line::new(alloc, Place { x: 5, y: 6 }, Place { x: 5, y: 54 });
    far.push(
        66,
        Place {
            x: -134_217_712,
            y: 6,
        },
    )?;
    let mut lines = Vec::new(alloc);
    lines.push(line)?;
    lines.push(far)?;
    Ok(Label {
        first: 3,
        after: 7,
        lines,
    })
}

// Where the letter begins, where the next one would, and its top, after each turn; and where the far one ends.
const LETTERS: [(Turn, [i32; 6], [i32; 2]); 4] = [
    (Turn::None, [0, 0, 32, 0, 0, 48], [-134_217_712, 6]),
    (
        Turn::Quarter,
        [2048, 0, 2048, 32, 2000, 0],
        [2042, -134_217_712],
    ),
    (
        Turn::Half,
        [1024, 2048, 992, 2048, 1024, 2000],
        [134_217_712, 2042],
    ),
    (
        Turn::ThreeQuarters,
        [0, 1024, 0, 992, 48, 1024],
        [6, 134_217_712],
    ),
];

#[test]
fn labels_turned(rt: HostRuntime) -> Result<(), Fail> {
    let page = tall()?;
    for (turn, wanted, far) in LETTERS {
        let mut labels = Vec::new(rt.alloc());
        labels.push(label(rt.alloc())?)?;
        turn_labels(labels.as_mut_slice(), turn, &page);
        for label in &labels {
            assert_eq!(rt; (label.first, label.after, label.lines.len()), (3, 7, 2));
            for line in &label.lines {
                let found = [
                    line.start.x,
                    line.start.y,
                    line.end.x,
                    line.end.y,
                    line.top.x,
                    line.top.y,
                ];
                if line.text.as_slice() == [65].as_slice() {
                    assert_eq!(rt; found, wanted);
                } else {
                    assert_eq!(rt; [line.end.x, line.end.y], far);
                }
            }
        }
    }
    Ok(())
}
