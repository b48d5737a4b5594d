//! What LT and UL have set.
ghost use Rattle.std.specs.Prelude.{◌≡◌, ◌≤◌, ◌^◌, nat_abs, replicate, None};
ghost use Rattle.plot_frame.specs.Bounds.{IsEnds, IsPoints};
ghost use Rattle.line_types.specs.LineTypes.{line_shape};
ghost use Rattle.full_settings.specs.LineStyles.{IsLineSetting, usual_style, style_with, line_kind_or, is_solid};
ghost use Rattle.full_settings.specs.LineStyles.{usual_gaps, gaps_of};
ghost use Rattle.full_settings.specs.LineStyles.{distance, diagonal, ticks_of, patterned_shape, shape_of};

use crate::line_setting::{LineKind, LineSetting, PatternLength};
use line_types::{Length, LineType, Pattern, diagonal};
use plot_frame::{Ends, Pair};
use std::marker::Model;

/// What LT (Line Type) and UL (User-Defined Line Type) have set.
#[derive(Drop)]
pub struct LineStyle {
    kind: LineKind,
    // The type before solid lines.
    remembered: LineKind,
    length: PatternLength,
    // The patterns of types 1 to 8 that UL has set.
    own: [Option<Pattern>; 8],
}

impl Model for LineStyle {
    ghost use Rattle.std.specs.Prelude.{◌≡◌, length};
    ghost use Rattle.full_settings.specs.LineStyles.{Style, IsKind};

    ghost Value = { Style };

    ghost view = { λ s. record { kind = s.kind; remembered = s.remembered; size = s.length; own = s.own } };

    ghost invariant = { λ s. IsKind s.kind × IsKind s.remembered };
}

impl LineStyle {
    /// What is set at the start: solid lines, and the usual patterns, 4 percent long.
    pub fn new() -> LineStyle
        ensures { result ≡ usual_style }
    {
        LineStyle {
            kind: LineKind::Solid,
            remembered: LineKind::Solid,
            length: PatternLength::Percent(4_000_000),
            own: no_patterns(),
        }
    }

    /// Sets what an LT or a UL asks for.
    pub fn set(&mut self, setting: LineSetting)
        requires { IsLineSetting setting }
        ensures { self.new ≡ style_with setting self.old }
    {
        match setting {
            LineSetting::Solid => {
                self.remembered = line_kind_or(self.kind, self.remembered);
                self.kind = LineKind::Solid;
            }
            LineSetting::Again => self.kind = line_kind_or(self.kind, self.remembered),
            LineSetting::Type(n) => self.kind = LineKind::Patterned(n),
            LineSetting::TypeAndLength(n, length) => {
                self.kind = LineKind::Patterned(n);
                self.length = length;
            }
            LineSetting::UsualPatterns => self.own = no_patterns(),
            LineSetting::UsualPattern(n) => self.own[usize::from(n - 1)] = None,
            LineSetting::OwnPattern(n, pattern) => self.own[usize::from(n - 1)] = Some(pattern),
        }
    }

    /// Whether lines are drawn whole.
    pub fn is_solid(&self) -> bool
        ensures { result ≡ is_solid self.now.kind }
    {
        match self.kind {
            LineKind::Solid => true,
            LineKind::Patterned(_) => false,
        }
    }

    /// The line type, with P1 and P2 as they are now.
    pub fn line_type(&self, points: &Pair<Ends>) -> LineType
        requires { IsPoints points.now }
        ensures { line_shape result ≡ shape_of self.now points.now }
    {
        match self.kind {
            LineKind::Solid => LineType::Solid,
            LineKind::Patterned(0) => LineType::EndDot,
            LineKind::Patterned(n) => patterned(n, self.pattern(n), self.length_by(points)),
        }
    }

    // The pattern of a type.
    fn pattern(&self, n: i8) -> Pattern
        requires from { 1 ≤ nat_abs n }
        requires to { nat_abs n ≤ 8 }
        ensures { result ≡ gaps_of self.now.own n }
    {
        match &self.own[usize::from(n.unsigned_abs()) - 1] {
            Some(pattern) => pattern.copied(),
            None => usual_pattern(n),
        }
    }

    // The length of a pattern, with P1 and P2 as they are now.
    fn length_by(&self, points: &Pair<Ends>) -> Length
        requires { IsPoints points.now }
        ensures { result.ticks ≡ ticks_of self.now.size points.now }
    {
        match self.length {
            PatternLength::Percent(percent) => Length::of_percent(diagonal_by(points), percent),
            PatternLength::Millimetres(millimetres) => Length::of_millimetres(millimetres),
        }
    }
}

// The line type of a type other than 0, with its pattern and the length of it.
fn patterned(n: i8, pattern: Pattern, length: Length) -> LineType
    ensures { line_shape result ≡ patterned_shape n pattern length.ticks }
{
    if n < 0 {
        LineType::Adaptive(pattern, length)
    } else {
        LineType::Fixed(pattern, length)
    }
}

// A kind, or the one before solid lines.
fn line_kind_or(kind: LineKind, before: LineKind) -> LineKind
    ensures { result ≡ line_kind_or kind before }
{
    match kind {
        LineKind::Solid => before,
        LineKind::Patterned(_) => kind,
    }
}

// The pattern of a type until UL sets another.
fn usual_pattern(n: i8) -> Pattern
    requires from { 1 ≤ nat_abs n }
    requires to { nat_abs n ≤ 8 }
    ensures { result ≡ usual_gaps n }
{
    if n < 0 {
        Pattern::adaptive(n.unsigned_abs())
    } else {
        Pattern::fixed(n.unsigned_abs())
    }
}

/// The distance from P1 to P2 in ticks of 1/256 grain.
pub fn diagonal_by(points: &Pair<Ends>) -> u64
    requires { IsPoints points.now }
    ensures value { result ≡ diagonal points.now }
    ensures most { result ≤ 2 ^ 40 }
{
    diagonal(distance(points.x), distance(points.y))
}

/// From P1 to P2 on an axis, in plotter units.
pub fn distance(ends: Ends) -> i64
    requires { IsEnds ends }
    ensures value { result ≡ distance ends }
    ensures most { nat_abs result ≤ 2 ^ 25 }
{
    ends.last - ends.first
}

// No type has a pattern that UL set.
fn no_patterns() -> [Option<Pattern>; 8]
    ensures { result ≡ replicate 8 None }
{
    [None, None, None, None, None, None, None, None]
}
