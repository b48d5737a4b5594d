//! The distances at which gaps end.
ghost use Rattle.std.specs.Prelude.{◌≡◌, ◌<◌, ◌≤◌, ◌+◌, ◌*◌, ◌^◌};
ghost use Rattle.line_types.specs.Dashes.{fixed_distance, adaptive_distance};

use crate::nearest::nearest_quotient;

// In repetition r of a pattern of this length.
#[inline]
pub fn even_distance(length: u64, total: u64, r: u64, passed: u64) -> u64
    requires length_in { length ≤ 2 ^ 40 }
    requires total_above { 0 < total }
    requires total_in { total < 2 ^ 48 }
    requires passed_in { passed ≤ total }
    requires r_in { r * length ≤ 2 ^ 42 }
    ensures value { result ≡ fixed_distance length total r passed }
    ensures most { result < 2 ^ 43 }
{
    let here = nearest_quotient(u128::from(length) * u128::from(passed), u128::from(total)) as u64;
    r * length + here
}

// In repetition r of those that fill a line.
#[inline]
pub fn fitted_distance(long: u64, count: u64, total: u64, r: u64, passed: u64) -> u64
    requires long_in { long < 2 ^ 37 }
    requires count_in { count ≤ 2 ^ 30 }
    requires total_above { 0 < total }
    requires total_in { total < 2 ^ 48 }
    requires passed_in { passed ≤ total }
    requires r_in { r < count }
    ensures value { result ≡ adaptive_distance long count total r passed }
    ensures most { result < 2 ^ 43 }
{
    let total = u128::from(total);
    let gone = u128::from(r) * total + u128::from(passed);
    nearest_quotient(u128::from(long) * gone, u128::from(count) * total) as u64
}
