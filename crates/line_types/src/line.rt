//! A line, measured.
ghost use Rattle.std.specs.Prelude.{◌≡◌, ◌≤◌, ◌<◌, ◌^◌, nat_abs, ◌+ℤ◌, ◌-ℤ◌};
ghost use Rattle.line_types.specs.Bounds.{IsPlace};
ghost use Rattle.line_types.specs.Lines.{long_of, share_of_line, spot_at};

use exact::{Spot, root, rounded};

/// A line between two places in grains, each within 2^27 of 0 in x and in y, with its length.
#[derive(Clone, Copy, Debug)]
pub struct Line {
    pub from: Spot,
    pub to: Spot,
    long: u64,
    pub ghost from_in: { IsPlace from },
    pub ghost to_in: { IsPlace to },
    pub ghost long_is: { long ≡ long_of from to },
    pub ghost long_in: { long < 2 ^ 37 },
}

impl Line {
    /// The line between two places.
    pub fn new(from: Spot, to: Spot) -> Line
        requires from_in { IsPlace from }
        requires to_in { IsPlace to }
        ensures from { result.from ≡ from }
        ensures to { result.to ≡ to }
    {
        let across = (to.x - from.x).unsigned_abs();
        let up = (to.y - from.y).unsigned_abs();
        let long = root(65_536 * (across * across + up * up)) as u64;
        Line { from, to, long }
    }

    /// The length of the line in ticks of 1/256 grain, rounded down.
    pub fn long(self) -> u64
        ensures value { result ≡ long_of self.from self.to }
        ensures most { result < 2 ^ 37 }
    {
        self.long
    }

    /// The place after t ticks of the line.
    pub fn spot_at(self, t: u64) -> Spot
        requires above { 0 < long_of self.from self.to }
        requires t_in { t ≤ long_of self.from self.to }
        ensures { result ≡ spot_at self.from self.to (long_of self.from self.to) t }
    {
        Spot {
            x: moved(self.from.x, self.to.x, t, self.long),
            y: moved(self.from.y, self.to.y, t, self.long),
        }
    }
}

// From a towards b, t of `long` parts of the way.
#[inline]
fn moved(a: i128, b: i128, t: u64, long: u64) -> i128
    requires a_in { nat_abs a ≤ 2 ^ 27 }
    requires b_in { nat_abs b ≤ 2 ^ 27 }
    requires t_in { t ≤ long }
    requires above { 0 < long }
    requires long_in { long < 2 ^ 37 }
    ensures { result ≡ a +ℤ share_of_line (b -ℤ a) t long }
{
    a + rounded((b - a) * i128::from(t), i128::from(long))
}
