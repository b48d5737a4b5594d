//! Patterns: which parts of a line are drawn.
ghost use Rattle.std.specs.Prelude.{◌≡◌, ◌≤◌, ◌<◌, ◌^◌, ◌↔◌, IsSome, IfSome, MatchOption};
ghost use Rattle.std.specs.Prelude.{length, sum, slice_index, take};
ghost use Rattle.line_types.specs.Bounds.{IsPattern};
ghost use Rattle.line_types.specs.Patterns.{fixed_gaps, adaptive_gaps};

use std::marker::Model;

/// The most gaps of a pattern.
pub const MOST_GAPS: usize = 20;

// What the sum of the gaps is below: 2^48.
const SUM_BELOW: u64 = 0x1_0000_0000_0000;

/// A pattern: 1 to 20 gaps, of which the first is drawn, the second is not, and so on. A drawn gap of
/// 0 is a dot. Gaps are in any unit, since only their ratios count: they are not all 0, and their sum
/// is below 2^48.
#[derive(Drop)]
pub struct Pattern {
    gaps: [u64; 20],
    count: usize,
    total: u64,
}

impl Model for Pattern {
    ghost use Rattle.std.specs.Prelude.{ℕ, ◌≡◌, ◌≤◌, List, take, sum};
    ghost use Rattle.line_types.specs.Bounds.{IsPattern};

    ghost Value = { List ℕ };

    ghost view = { λ p. take p.count p.gaps };

    ghost invariant = { λ p. (p.count ≤ 20) × (p.total ≡ sum (take p.count p.gaps)) × IsPattern (take p.count p.gaps) };
}

impl Pattern {
    /// A pattern of these gaps, or `None` if they are none or over 20, if all are 0, or if their sum is
    /// 2^48 or more.
    pub fn new(gaps: &[u64]) -> Option<Pattern>
        ensures given { IsSome result ↔ IsPattern gaps.now }
        ensures value { IfSome result (λ pattern. pattern ≡ gaps.now) }
    {
        if gaps.len() > MOST_GAPS {
            return None;
        }
        match total(gaps) {
            None | Some(0) => None,
            Some(total) => Some(Pattern::of(gaps, total)),
        }
    }

    /// The fixed pattern of a line type, 1 to 8.
    pub fn fixed(n: u8) -> Pattern
        requires from { 1 ≤ n }
        requires to { n ≤ 8 }
        ensures { result ≡ fixed_gaps n }
    {
        match n {
            1 => Pattern::of(&[0, 100], 100),
            2 => Pattern::of(&[50, 50], 100),
            3 => Pattern::of(&[70, 30], 100),
            4 => Pattern::of(&[80, 10, 0, 10], 100),
            5 => Pattern::of(&[70, 10, 10, 10], 100),
            6 => Pattern::of(&[50, 10, 10, 10, 10, 10], 100),
            7 => Pattern::of(&[70, 10, 0, 10, 0, 10], 100),
            _ => Pattern::of(&[50, 10, 0, 10, 10, 10, 0, 10], 100),
        }
    }

    /// The adaptive pattern of the line type -n, for n from 1 to 8.
    pub fn adaptive(n: u8) -> Pattern
        requires from { 1 ≤ n }
        requires to { n ≤ 8 }
        ensures { result ≡ adaptive_gaps n }
    {
        match n {
            1 => Pattern::of(&[0, 100], 100),
            2 => Pattern::of(&[25, 50, 25], 100),
            3 => Pattern::of(&[35, 30, 35], 100),
            4 => Pattern::of(&[40, 10, 0, 10, 40], 100),
            5 => Pattern::of(&[35, 10, 10, 10, 35], 100),
            6 => Pattern::of(&[25, 10, 10, 10, 10, 10, 25], 100),
            7 => Pattern::of(&[35, 10, 0, 10, 0, 10, 35], 100),
            _ => Pattern::of(&[25, 10, 0, 10, 10, 10, 0, 10, 25], 100),
        }
    }

    // The pattern of these gaps, whose sum is `total`.
    fn of(gaps: &[u64], total: u64) -> Pattern
        requires sound { IsPattern gaps.now }
        requires sum { total ≡ sum gaps.now }
        ensures { result ≡ gaps.now }
    {
        Pattern {
            gaps: kept(gaps),
            count: gaps.len(),
            total,
        }
    }

    /// The same pattern.
    pub fn copied(&self) -> Pattern
        ensures { result ≡ self.now }
    {
        Pattern {
            gaps: self.gaps,
            count: self.count,
            total: self.total,
        }
    }

    /// How many gaps the pattern has.
    pub fn len(&self) -> usize
        ensures count { result ≡ length self.now }
        ensures sound { IsPattern self.now }
    {
        self.count
    }

    /// A gap, by its number from 0 on.
    pub fn gap(&self, j: usize) -> u64
        requires { j < length self.now }
        ensures { result ≡ slice_index self.now j }
    {
        let gaps = &self.gaps;
        gaps[j]
    }

    /// The sum of all gaps.
    pub fn total(&self) -> u64
        ensures sum { result ≡ sum self.now }
        ensures sound { IsPattern self.now }
    {
        self.total
    }
}

// The gaps, with 0 after them.
fn kept(gaps: &[u64]) -> [u64; 20]
    requires { length gaps.now ≤ 20 }
    ensures { take (length gaps.now) result ≡ gaps.now }
{
    let mut kept = [0; 20];
    for (j, gap) in gaps.iter().enumerate() {
        kept[j] = *gap;
    }
    kept
}

// The sum of the gaps, or `None` if it is too large.
fn total(gaps: &[u64]) -> Option<u64>
    ensures { MatchOption result (2 ^ 48 ≤ sum gaps.now) (λ t. (t ≡ sum gaps.now) × (t < 2 ^ 48)) }
{
    let mut total = 0;
    for gap in gaps {
        if *gap >= SUM_BELOW - total {
            return None;
        }
        total += *gap;
    }
    Some(total)
}
