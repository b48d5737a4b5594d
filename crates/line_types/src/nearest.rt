//! The one rounding, of numbers that are not below 0.
ghost use Rattle.std.specs.Prelude.{◌≡◌, ◌<◌, ◌≤◌, ◌^◌, ◌/◌};
ghost use Rattle.line_types.specs.Patterns.{nearest_quotient};

// The whole number nearest to a / b, and the upper one of two that are as near. Numbers of 64 bits are
// divided faster.
#[inline]
pub fn nearest_quotient(a: u128, b: u128) -> u128
    requires a_in { a < 2 ^ 126 }
    requires b_in { b < 2 ^ 126 }
    requires b_above { 0 < b }
    ensures { result ≡ nearest_quotient a b }
{
    divided(2 * a + b, 2 * b)
}

#[inline]
fn divided(a: u128, b: u128) -> u128
    requires { 0 < b }
    ensures { result ≡ a / b }
{
    match (u64::try_from(a), u64::try_from(b)) {
        (Ok(a), Ok(b)) => u128::from(a / b),
        _ => a / b,
    }
}
