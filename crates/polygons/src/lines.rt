//! How polygons are filled.
ghost use Rattle.std.specs.Prelude.{◌≡◌, ◌<◌, ◌+◌, ◌^◌};
ghost use Rattle.polygons.specs.Fills.{is_inside};

use crate::place::Place;

/// Parallel lines.
#[derive(Clone, Copy, Debug, PartialEq, Eq)]
pub struct Lines {
    /// Their direction, in thousandths of a degree counterclockwise from the right.
    pub angle: i32,
    /// From each line to the next, in ticks of 1/256 grain: 4096 to 2^40.
    pub apart: u64,
    /// A place that one of the lines goes through.
    pub anchor: Place,
}

/// Which parts of a line are inside polygons.
#[derive(Clone, Copy, Debug, PartialEq, Eq)]
pub enum Rule {
    /// Those after an odd number of crossings.
    OddCounts,
    /// Those after more crossings in one direction than in the other.
    Winding,
}

impl Rule {
    /// Whether a line is inside after this many upward crossings and this many others.
    pub fn is_inside(self, upward: usize, others: usize) -> bool
        requires { upward + others < 2 ^ 64 }
        ensures { result ≡ is_inside self upward others }
    {
        match self {
            Rule::OddCounts => (upward + others) % 2 == 1,
            Rule::Winding => upward != others,
        }
    }
}
