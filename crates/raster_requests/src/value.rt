//! Values of commands, with their signs.
ghost use Rattle.std.specs.Prelude.{◌≡◌, ◌≤◌, ◌<◌, nat_abs};
ghost use Rattle.escapes.specs.Commands.{value_limit};
ghost use Rattle.escapes.specs.Views.{said};
ghost use Rattle.raster_requests.specs.Values.{signed_value, whole_value};

use escapes::{Command, Sign};
use exact::rounded;

/// The value, in millionths.
pub fn signed_value(command: &Command<'_>) -> i64
    ensures value { result ≡ signed_value (said command.now) }
    ensures bound { nat_abs result < value_limit }
{
    let size = command.millionths as i64;
    match command.sign {
        Sign::Minus => -size,
        Sign::Unsigned | Sign::Plus => size,
    }
}

/// The value rounded to a whole number, the upper one of two.
pub fn whole_value(command: &Command<'_>) -> i64
    ensures value { result ≡ whole_value (said command.now) }
    ensures bound { nat_abs result ≤ 2147483648 }
{
    rounded(i128::from(signed_value(command)), 1_000_000) as i64
}
