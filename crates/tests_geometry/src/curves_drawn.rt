// The places on arcs through three places and on Bezier curves.
ghost use Rattle.std.specs.Prelude.{◌^◌, IfOk};
ghost use Rattle.directions.specs.Bounds.{IsWithin};

use crate::numbers::number_of;
use crate::texts::has_text;
use curves::{arc_places, bezier_places};
use exact::Spot;
use std::alloc::Global;
use std::process::Abort;
use std::test::Fail;

// The farthest coordinate of a place from 0.
const FAR: i64 = 134_217_712;

// A place in range.
fn place(x: Option<&str>, y: Option<&str>) -> Result<Spot, Fail>
    ensures { IfOk result (IsWithin (2 ^ 27)) }
{
    let (x, y) = (number_of(x), number_of(y));
    if x < -FAR || FAR < x || y < -FAR || FAR < y {
        return Err("a place out of range".into());
    }
    Ok(Spot {
        x: i128::from(x),
        y: i128::from(y),
    })
}

// Fails unless there are so many lines, and each has the answer that it says: the coordinates of three places for an
// arc, or four for a curve, the numbers of some places on it, from 1 on, a colon, how many places there are, and those
// of these numbers.
fn has_answers(
    rt: &impl Abort,
    alloc: Global,
    is_curve: bool,
    lines: &str,
    count: usize,
) -> Result<(), Fail> {
    let mut text = String::new(alloc);
    let mut found: usize = 0;
    for line in lines.lines() {
        let (words, _) = line.split_once(":").ok_or("a line without a colon")?;
        text.push_str(words)?;
        text.push_str(places_told(alloc, is_curve, words)?.as_str())?;
        found = found.saturating_add(1);
    }
    has_text(rt, text.as_str(), lines);
    if found != count {
        return Err("not so many lines".into());
    }
    Ok(())
}

fn places_told(alloc: Global, is_curve: bool, words: &str) -> Result<String, Fail> {
    let mut words = words.split_whitespace();
    let first = place(words.next(), words.next())?;
    let second = place(words.next(), words.next())?;
    let third = place(words.next(), words.next())?;
    let places = if is_curve {
        let fourth = place(words.next(), words.next())?;
        bezier_places(alloc, first, second, third, fourth)?
    } else {
        arc_places(alloc, first, second, third)?
    };
    let mut told = format!(in alloc; ": {} places", places.len())?;
    for word in words {
        let number = usize::try_from(number_of(Some(word))).unwrap_or(0);
        if let Some(place) = places.get(number.wrapping_sub(1)) {
            write!(told, "; {} {}", place.x, place.y)?;
        }
    }
    told.push_str("\n")?;
    Ok(told)
}

const HALF_CIRCLES: &str = "\
0 1600 1600 3200 3200 1600 1 31 32 63 64: 64 places; 2 1679; 1521 3198; 1600 3200; 3198 1679; 3200 1600
0 1600 1600 0 3200 1600 1 16 32 63 64: 64 places; 2 1521; 469 469; 1600 0; 3198 1521; 3200 1600
";

#[test]
fn half_a_circle_in_both_senses(rt: HostRuntime) -> Result<(), Fail> {
    has_answers(&rt, rt.alloc(), false, HALF_CIRCLES, 2)
}

// The first has its centre to the left and below, and the second place soon comes; the centre of the second, a small
// one, is not in a whole grain; the third is a whole circle.
const OTHER_ARCS: &str = "\
0 0 -700 300 200 -100 1 8 31 32 63 64: 64 places; -754 320; -6381 379; -8115 -14649; -7400 -15051; \
909 -511; 200 -100
5 5 10 9 12 2 2 8 17 23 32 64: 64 places; 5 6; 6 7; 7 9; 9 9; 11 9; 12 2
1600 1600 3200 1600 1600 1600 1 31 32 63 64: 64 places; 1604 1522; 3196 1522; 3200 1600; 1604 1678; 1600 1600
";

#[test]
fn other_arcs(rt: HostRuntime) -> Result<(), Fail> {
    has_answers(&rt, rt.alloc(), false, OTHER_ARCS, 3)
}

// Three places on one line have no circle, and the centre of three that are nearly on one is too far
// away.
const LINES_FOR_ARCS: &str = "\
0 0 160 0 320 0 1: 1 places; 320 0
7 8 7 8 7 8 1: 1 places; 7 8
-1000000 0 0 3 1000000 0 1: 2 places; 0 3
-1000000 0 3 117 1000000 0 31 32 33: 64 places; -31245 117; -2 117; 31249 117
";

#[test]
fn lines_for_arcs(rt: HostRuntime) -> Result<(), Fail> {
    has_answers(&rt, rt.alloc(), false, LINES_FOR_ARCS, 4)
}

// A bow, a flat curve, a wide one, two at a bound and above it, and the widest.
const CURVES: &str = "\
0 0 0 64 128 64 128 0 1 2 3 4: 4 places; 20 36; 64 48; 108 36; 128 0
0 0 100 0 200 0 301 0 1 2 3 4: 4 places; 75 0; 150 0; 225 0; 301 0
0 0 1000 3000 -2000 500 4001 -3 1 2 16 31 32: 32 places; 82 265; 144 500; 125 1312; 3464 50; 4001 -3
0 0 0 0 0 0 1024 0 8: 8 places; 1024 0
0 0 0 0 0 0 1025 0 16: 16 places; 1025 0
-134217712 0 134217712 0 -134217712 0 134217712 0 128: 256 places; 0 0
";

#[test]
fn bezier_curves(rt: HostRuntime) -> Result<(), Fail> {
    has_answers(&rt, rt.alloc(), true, CURVES, 6)
}
