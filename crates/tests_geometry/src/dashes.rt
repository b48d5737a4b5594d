// The dashes of lines, one line after another, by the patterns of line types.
ghost use Rattle.line_types.specs.Bounds.{IsPlace};

use crate::texts::has_text;
use exact::Spot;
use line_types::{Length, Line, LineType, Pattern, Run, diagonal};
use std::alloc::{AllocError, Global};
use std::process::Abort;

fn place(x: i16, y: i16) -> Spot
    ensures { IsPlace result }
{
    Spot {
        x: i128::from(x),
        y: i128::from(y),
    }
}

// The ends in x of the dashes of a line.
fn ends_of(
    alloc: Global,
    line_type: &LineType,
    line: Line,
    run: Option<Run>,
) -> Result<String, AllocError> {
    let mut text = String::new(alloc);
    for (first, last) in line_type.dashes(line, run) {
        write!(text, "{} to {}; ", first.x, last.x)?;
    }
    Ok(text)
}

// Fails unless the dashes of a line have these ends in x.
fn has_ends(
    rt: &impl Abort,
    alloc: Global,
    line_type: &LineType,
    line: Line,
    run: Option<Run>,
    wanted: &str,
) -> Result<(), AllocError> {
    let ends = ends_of(alloc, line_type, line, run)?;
    has_text(rt, ends.as_str(), wanted);
    Ok(())
}

// Ten percent of the diagonal of a rectangle of 300 by 400 plotter units: 800 grains.
fn ten_percent() -> Length {
    Length::of_percent(diagonal(300, 400), 10_000_000)
}

#[test]
fn a_fixed_pattern_goes_on_at_a_corner(rt: HostRuntime) -> Result<(), AllocError> {
    let dashed = LineType::Fixed(Pattern::fixed(2), ten_percent());
    let first = Line::new(place(0, 1600), place(1920, 1600));
    let wanted = "0 to 400; 800 to 1200; 1600 to 1920; ";
    has_ends(&rt, rt.alloc(), &dashed, first, None, wanted)?;
    let run = dashed.run_after(first, None);
    let second = Line::new(place(1920, 1600), place(3000, 1600));
    let wanted = "1920 to 2000; 2400 to 2800; ";
    has_ends(&rt, rt.alloc(), &dashed, second, run, wanted)?;
    let elsewhere = Line::new(place(0, 0), place(320, 0));
    has_ends(&rt, rt.alloc(), &dashed, elsewhere, run, "0 to 320; ")
}

#[test]
fn dots_of_a_pattern(rt: HostRuntime) -> Result<(), AllocError> {
    let line = Line::new(place(0, 0), place(1600, 0));
    let fixed = LineType::Fixed(Pattern::fixed(1), ten_percent());
    has_ends(&rt, rt.alloc(), &fixed, line, None, "0 to 0; 800 to 800; ")?;
    let adaptive = LineType::Adaptive(Pattern::fixed(1), ten_percent());
    let wanted = "0 to 0; 800 to 800; 1600 to 1600; ";
    has_ends(&rt, rt.alloc(), &adaptive, line, None, wanted)
}

#[test]
fn adaptive_dashes_fill_a_line(rt: HostRuntime) -> Result<(), AllocError> {
    let dashed = LineType::Adaptive(Pattern::adaptive(2), ten_percent());
    let line = Line::new(place(0, 1600), place(1920, 1600));
    let wanted = "0 to 160; 480 to 640; 640 to 800; 1120 to 1280; 1280 to 1440; 1760 to 1920; ";
    has_ends(&rt, rt.alloc(), &dashed, line, None, wanted)
}

#[test]
fn lines_without_a_pattern(rt: HostRuntime) -> Result<(), AllocError> {
    let line = Line::new(place(-16, 0), place(48, 7));
    has_ends(&rt, rt.alloc(), &LineType::Solid, line, None, "-16 to 48; ")?;
    has_ends(&rt, rt.alloc(), &LineType::EndDot, line, None, "48 to 48; ")?;
    let still = Line::new(place(5, 5), place(5, 5));
    let run = Run {
        end: place(5, 5),
        phase: 7,
    };
    let dashed = LineType::Fixed(Pattern::fixed(2), ten_percent());
    has_ends(&rt, rt.alloc(), &dashed, still, Some(run), "5 to 5; ")?;
    assert!(rt; dashed.run_after(still, None).is_none());
    Ok(())
}
