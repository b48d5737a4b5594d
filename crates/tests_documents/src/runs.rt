//! Runs, by how each stroke follows the one before it.
use crate::svg_strokes::{strokes_of, three_pens};
use polygons::Rule;
use std::alloc::Global;
use std::process::Abort;
use std::test::Fail;
use stroke_runs::{Link, MOST_IN_RUN, Role, Runs, is_drawn};

// How each stroke of three pens follows the one before it: `b` if it begins a run, `j` if it goes on where that one ends,
// `a` if it goes on elsewhere, `-` if it is not drawn.
fn links(alloc: Global, lines: &str) -> Result<String, Fail> {
    let pens = three_pens();
    let mut runs = Runs::new();
    let mut text = String::new(alloc);
    for stroke in &strokes_of(alloc, lines)? {
        let link = if !is_drawn(&pens, stroke) {
            "-"
        } else {
            match runs.next(stroke) {
                Link::Begins => "b",
                Link::Apart => "a",
                Link::Joined => "j",
            }
        };
        text.push_str(link)?;
    }
    Ok(text)
}

// Strokes that differ from the one before them in one number: a coordinate, the pen, a part of the colour, the width, or
// the window. Those of pen 3 and with an empty window are not drawn, and end no run.
#[test]
fn what_ends_a_run(rt: HostRuntime) -> Result<(), Fail> {
    let strokes = "\
1 0 56 0 0 0 9 9
1 0 56 0 9 9 9 9
1 0 56 0 8 9 9 9
1 0 56 0 9 8 9 9
2 0 56 0 9 9 9 9
2 2 56 0 9 9 9 9
2 0 56 0 9 9 9 9
2 3 56 0 9 9 9 9
2 0 56 0 9 9 9 9
2 4 56 0 9 9 9 9
2 4 57 0 9 9 9 9
2 4 57 2 9 9 9 9
3 4 57 2 0 0 0 0
2 4 57 2 9 9 9 9
2 4 57 4 0 0 0 0
2 4 57 5 0 0 0 0
2 4 57 2 9 9 9 9
2 4 57 3 9 9 9 9
";
    assert_eq!(&rt; links(rt.alloc(), strokes)?.as_str(), "bjaabbbbbbbb-j--jb");
    Ok(())
}

// A run has at most 1,000 strokes; those that are not drawn do not count.
#[test]
fn full_runs(rt: HostRuntime) -> Result<(), Fail> {
    let mut lines = String::new(rt.alloc());
    let mut want = String::new(rt.alloc());
    for number in 0..2_001u32 {
        lines.push_str("1 0 56 0 0 0 0 0\n3 0 56 0 0 0 0 0\n")?;
        want.push_str(if number % MOST_IN_RUN == 0 {
            "b-"
        } else {
            "j-"
        })?;
    }
    assert_eq!(&rt; links(rt.alloc(), lines.as_str())?.as_str(), want.as_str());
    Ok(())
}

#[test]
fn begun_runs(rt: HostRuntime) -> Result<(), Fail> {
    let mut runs = Runs::new();
    assert!(&rt; !runs.has_begun());
    for stroke in &strokes_of(rt.alloc(), "1 0 56 0 0 0 9 9")? {
        assert_eq!(&rt; runs.next(stroke), Link::Begins);
    }
    assert!(&rt; runs.has_begun());
    Ok(())
}

// How strokes follow one another, by what they are, each link with the rule of its run: `o` for odd counts, `w` for winding.
fn links_as(alloc: Global, lines: &str, roles: &[Role]) -> Result<String, Fail> {
    let mut runs = Runs::new();
    let mut text = String::new(alloc);
    for (stroke, role) in strokes_of(alloc, lines)?.iter().zip(roles) {
        text.push_str(match runs.next_as(stroke, *role) {
            Link::Begins => " b",
            Link::Apart => " a",
            Link::Joined => " j",
        })?;
        text.push_str(match runs.rule() {
            None => "",
            Some(Rule::OddCounts) => "o",
            Some(Rule::Winding) => "w",
        })?;
    }
    Ok(text)
}

// An area goes on no run, and no other shape goes on it, even if all are drawn in one way. Its edges go on, there or elsewhere.
#[test]
fn areas_are_runs(rt: HostRuntime) -> Result<(), Fail> {
    let strokes = "\
1 0 0 0 0 0 9 9
1 0 0 0 9 9 0 9
1 0 0 0 0 9 9 9
1 0 0 0 5 5 6 6
1 0 0 0 6 6 5 5
1 0 0 0 5 5 6 6
1 0 0 0 6 6 6 6
";
    let roles = [
        Role::Stroke,
        Role::FirstEdge(Rule::OddCounts),
        Role::NextEdge,
        Role::NextEdge,
        Role::FirstEdge(Rule::Winding),
        Role::Stroke,
        Role::Stroke,
    ];
    let links = links_as(rt.alloc(), strokes, &roles)?;
    assert_eq!(&rt; links.as_str(), " b bo jo ao bw b j");
    Ok(())
}
