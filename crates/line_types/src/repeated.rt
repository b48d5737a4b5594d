//! The dashes of a line by a pattern, one at a time.
ghost use Rattle.std.specs.Prelude.{◌≡◌, ◌<◌, ◌≤◌, ◌+◌, ◌++◌, ◌^◌, [], sum};
ghost use Rattle.std.specs.Option.{option_to_list};

use crate::distances::{even_distance, fitted_distance};
use crate::line::Line;
use crate::pattern::Pattern;
use exact::Spot;

// How the repetitions of a pattern lie on a line.
#[derive(Clone, Copy)]
pub enum Spacing {
    // Each is this long, in ticks.
    Even(u64),
    // All together are as long as the line.
    Fitted,
}

// The dashes that are left of a line.
#[derive(Drop)]
pub struct Repeated<'a> {
    // The line, which begins `start` ticks after the first repetition.
    pub line: Line,
    pub start: u64,
    // The pattern, and how often it is repeated.
    pub pattern: &'a Pattern,
    pub spacing: Spacing,
    pub repetitions: u64,
    // The next drawn gap, its repetition, and the sum of the gaps before it.
    pub gap: usize,
    pub repetition: u64,
    pub passed: u64,
}

impl<'a> Repeated<'a> {
    ghost use Rattle.line_types.specs.Dashes.{dot_at, part, dash};
    ghost use Rattle.line_types.specs.Lines.{long_of};
    ghost use Rattle.line_types.specs.Patterns.{start_of};
    ghost use Rattle.line_types.specs.Left.{stretch_of, distance_of, gap_dash, repeated_left, dashes_by};
    ghost use Rattle.line_types.specs.Left.{IsRepeated, IsSpacing, steps_left};

    // All dashes of a line by a pattern.
    pub fn new(
        line: Line,
        start: u64,
        pattern: &'a Pattern,
        spacing: Spacing,
        repetitions: u64,
    ) -> Repeated<'a>
        requires above { 0 < long_of line.from line.to }
        requires start_in { start < 2 ^ 40 }
        requires spacing_in { IsSpacing spacing repetitions }
        ensures sound { IsRepeated result }
        ensures all { repeated_left result ≡ dashes_by spacing pattern.now line.from line.to start repetitions }
    {
        let _gaps = pattern.len();
        Repeated {
            line,
            start,
            pattern,
            spacing,
            repetitions,
            gap: 0,
            repetition: 0,
            passed: 0,
        }
    }

    // The next dash.
    pub fn next(&mut self) -> Option<(Spot, Spot)>
        requires { IsRepeated self.old }
        ensures sound { IsRepeated self.new }
        ensures taken { repeated_left self.old ≡ option_to_list result ++ repeated_left self.new }
        ensures none { result ≡ None → repeated_left self.new ≡ [] }
    {
        'gaps: while self.repetition < self.repetitions {
            if let Some(dash) = self.step() {
                return Some(dash);
            }
        }
        None
    }

    // What the next drawn gap draws.
    fn step(&mut self) -> Option<(Spot, Spot)>
        requires sound { IsRepeated self.old }
        requires more { self.old.repetition < self.old.repetitions }
        ensures sound { IsRepeated self.new }
        ensures taken { repeated_left self.old ≡ option_to_list result ++ repeated_left self.new }
        ensures nearer { steps_left self.new < steps_left self.old }
    {
        let end = self.passed + self.pattern.gap(self.gap);
        let dash = self.dash(self.distance(self.passed), self.distance(end));
        self.advance(end);
        dash
    }

    // Goes on to the next drawn gap.
    fn advance(&mut self, end: u64)
        requires sound { IsRepeated self.old }
        requires more { self.old.repetition < self.old.repetitions }
        requires end { end ≡ start_of self.old.pattern.now (self.old.gap + 1) }
        ensures sound { IsRepeated self.new }
        ensures taken { repeated_left self.old ≡ gap_dash self.old self.old.repetition self.old.gap ++ repeated_left self.new }
        ensures nearer { steps_left self.new < steps_left self.old }
    {
        if self.gap + 2 < self.pattern.len() {
            self.passed = end + self.pattern.gap(self.gap + 1);
            self.gap += 2;
        } else {
            self.passed = 0;
            self.gap = 0;
            self.repetition += 1;
        }
    }

    // The distance at which gaps of a sum `passed` end in this repetition.
    fn distance(&self, passed: u64) -> u64
        requires sound { IsRepeated self.now }
        requires more { self.now.repetition < self.now.repetitions }
        requires passed_in { passed ≤ sum self.now.pattern.now }
        ensures value { result ≡ distance_of self.now self.now.repetition passed }
        ensures most { result < 2 ^ 43 }
    {
        let total = self.pattern.total();
        match self.spacing {
            Spacing::Even(length) => even_distance(length, total, self.repetition, passed),
            Spacing::Fitted => fitted_distance(
                self.line.long(),
                self.repetitions,
                total,
                self.repetition,
                passed,
            ),
        }
    }

    // The dash from s to e, cut to the line.
    fn dash(&self, s: u64, e: u64) -> Option<(Spot, Spot)>
        requires sound { IsRepeated self.now }
        ensures { option_to_list result ≡ dash (stretch_of self.now) s e }
    {
        if s == e {
            return self.dot_at(s);
        }
        let end = self.start + self.line.long();
        self.part(s.max(self.start), e.min(end))
    }

    // A dot, if its distance is on the line and before the line's end.
    fn dot_at(&self, s: u64) -> Option<(Spot, Spot)>
        requires { IsRepeated self.now }
        ensures { option_to_list result ≡ dot_at (stretch_of self.now) s }
    {
        if self.start <= s && s < self.start + self.line.long() {
            let spot = self.line.spot_at(s - self.start);
            return Some((spot, spot));
        }
        None
    }

    // What is drawn from one distance to another.
    fn part(&self, s: u64, e: u64) -> Option<(Spot, Spot)>
        requires sound { IsRepeated self.now }
        requires from { self.now.start ≤ s }
        requires to { e ≤ self.now.start + long_of self.now.line.from self.now.line.to }
        ensures { option_to_list result ≡ part (stretch_of self.now) s e }
    {
        if s < e {
            let from = self.line.spot_at(s - self.start);
            let to = self.line.spot_at(e - self.start);
            return Some((from, to));
        }
        None
    }
}
