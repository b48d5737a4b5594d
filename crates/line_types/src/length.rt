//! The length of a pattern.
ghost use Rattle.std.specs.Prelude.{◌≡◌, ◌≤◌, ◌<◌, ◌^◌, nat_abs};
ghost use Rattle.line_types.specs.Patterns.{diagonal_of, cut_length, length_by_percent, length_by_millimetres};

use crate::nearest::nearest_quotient;
use exact::root;

/// The length of a pattern in ticks of 1/256 grain: 256 to 2^40.
#[derive(Clone, Copy, Debug)]
pub struct Length {
    pub ticks: u64,
    pub ghost at_least: { 256 ≤ ticks },
    pub ghost at_most: { ticks ≤ 2 ^ 40 },
}

impl Length {
    /// A length in millionths of a percent of a diagonal, which is in ticks.
    pub fn of_percent(diagonal: u64, percent: u64) -> Length
        requires { diagonal ≤ 2 ^ 40 }
        ensures { result.ticks ≡ length_by_percent diagonal percent }
    {
        Length::cut(nearest_quotient(u128::from(diagonal) * u128::from(percent), 100_000_000))
    }

    /// A length in millionths of a millimetre.
    pub fn of_millimetres(millimetres: u64) -> Length
        ensures { result.ticks ≡ length_by_millimetres millimetres }
    {
        Length::cut(nearest_quotient(163_840 * u128::from(millimetres), 1_000_000))
    }

    // The length, cut to its range.
    fn cut(ticks: u128) -> Length
        ensures { result.ticks ≡ cut_length ticks }
    {
        Length {
            ticks: ticks.min(1 << 40).max(256) as u64,
        }
    }
}

/// The diagonal of a rectangle in ticks, by its two sides in plotter units, each within 2^26 of 0.
pub fn diagonal(d: i64, e: i64) -> u64
    requires d_in { nat_abs d ≤ 2 ^ 26 }
    requires e_in { nat_abs e ≤ 2 ^ 26 }
    ensures value { result ≡ diagonal_of d e }
    ensures most { result ≤ 2 ^ 40 }
{
    let d = u128::from(d.unsigned_abs());
    let e = u128::from(e.unsigned_abs());
    root(16_777_216 * (d * d + e * e)) as u64
}
