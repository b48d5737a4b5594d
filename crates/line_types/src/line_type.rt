//! Line types.
ghost use Rattle.std.specs.Prelude.{◌≡◌, ◌<◌, ◌≤◌, ◌*◌, ◌^◌};
ghost use Rattle.std.specs.Option.{option_to_list};
ghost use Rattle.line_types.specs.Dashes.{fixed_dashes, adaptive_dashes, last_dot};
ghost use Rattle.line_types.specs.LineTypes.{line_shape, dashes_of, run_after, phase_at, whole_or};

use crate::dashes::Dashes;
use crate::length::Length;
use crate::line::Line;
use crate::pattern::Pattern;
use crate::repeated::{Repeated, Spacing};
use crate::run::Run;
use exact::Spot;

/// How lines are drawn.
#[derive(Drop)]
pub enum LineType {
    /// A line is drawn whole.
    Solid,
    /// Only a dot at the line's end is drawn.
    EndDot,
    /// The pattern has its length, and goes on from line to line.
    Fixed(Pattern, Length),
    /// The pattern is shortened, so that a whole number of repetitions fill the line.
    Adaptive(Pattern, Length),
}

impl LineType {
    /// What is drawn of a line, if the line before it left this run.
    pub fn dashes(&self, line: Line, run: Option<Run>) -> Dashes<'_>
        ensures { result ≡ dashes_of (line_shape self.now) run line.from line.to }
    {
        match self {
            LineType::Solid => Dashes::one(line.from, line.to),
            LineType::EndDot => Dashes::one(line.to, line.to),
            LineType::Fixed(pattern, length) => fixed_dashes(pattern, *length, line, run),
            LineType::Adaptive(pattern, length) => adaptive_dashes(pattern, *length, line),
        }
    }

    /// The run that a line leaves.
    pub fn run_after(&self, line: Line, run: Option<Run>) -> Option<Run>
        ensures { result ≡ run_after (line_shape self.now) run line.from line.to }
    {
        let (end, long) = (line.to, line.long());
        match self {
            LineType::Fixed(_, length) if long > 0 => {
                let phase = (phase_at(run, line.from, *length) + long) % length.ticks;
                Some(Run { end, phase })
            }
            LineType::Adaptive(_, _) if long > 0 => Some(Run { end, phase: 0 }),
            _ => run,
        }
    }
}

// How far a pattern of this length has gone when a line begins at a place.
fn phase_at(run: Option<Run>, from: Spot, length: Length) -> u64
    ensures value { result ≡ phase_at run from length.ticks }
    ensures below { result < length.ticks }
{
    match run {
        Some(run) if run.end == from => run.phase % length.ticks,
        _ => 0,
    }
}

// The dashes of a line by a fixed pattern.
fn fixed_dashes<'a>(
    pattern: &'a Pattern,
    length: Length,
    line: Line,
    run: Option<Run>,
) -> Dashes<'a>
    ensures { result ≡ whole_or
        (fixed_dashes pattern.now length.ticks (phase_at run line.from length.ticks) line.from line.to)
        line.from line.to }
{
    let long = line.long();
    if long == 0 {
        return Dashes::one(line.from, line.to);
    }
    let start = phase_at(run, line.from, length);
    let count = (long + start) / length.ticks + 1;
    Dashes::of(
        Repeated::new(line, start, pattern, Spacing::Even(length.ticks), count),
        None,
    )
}

// The dashes of a line by an adaptive pattern.
fn adaptive_dashes<'a>(pattern: &'a Pattern, length: Length, line: Line) -> Dashes<'a>
    ensures { result ≡ whole_or (adaptive_dashes pattern.now length.ticks line.from line.to) line.from line.to }
{
    let long = line.long();
    if long == 0 {
        return Dashes::one(line.from, line.to);
    }
    let count = (long + length.ticks - 1) / length.ticks;
    Dashes::of(
        Repeated::new(line, 0, pattern, Spacing::Fitted, count),
        last_dot(pattern, line.to),
    )
}

// The dot at a line's end, if the pattern begins with a dot.
fn last_dot(pattern: &Pattern, end: Spot) -> Option<(Spot, Spot)>
    ensures { option_to_list result ≡ last_dot pattern.now end }
{
    if pattern.len() > 0 && pattern.gap(0) == 0 {
        return Some((end, end));
    }
    None
}
