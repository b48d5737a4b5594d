//! What the numbers of TL set, or `None` if they are wrong.
ghost use Rattle.std.specs.Prelude.{◌≡◌, ◌&&◌, IfSome};
ghost use Rattle.plot_settings.specs.Parameters.{when};
ghost use Rattle.full_settings.specs.Percentages as percentages;
ghost use Rattle.full_settings.specs.TickParameters.{tick_length, ticks, IsTickLength};

use crate::percentages::is_percentage;
use crate::tick_length::TickLength;
use hpgl_text::Number;

/// TL up, down (Tick Length): percentages of the distance from P1 to P2, or 0.5 and 0.5 if no number is
/// there, or 0 down if one is missing. `None` if a number is not -1000 to 1000.
pub fn tick_setting(numbers: &[Number]) -> Option<TickLength>
    ensures value { result ≡ tick_length numbers.now }
    ensures sound { IfSome result IsTickLength }
{
    match numbers {
        [] => Some(TickLength::usual()),
        [up] => ticks_by(up.millionths(), 0),
        [up, down, ..] => ticks_by(up.millionths(), down.millionths()),
    }
}

fn ticks_by(up: i64, down: i64) -> Option<TickLength>
    ensures value { result ≡ when (percentages.is_percentage up && percentages.is_percentage down) (ticks up down) }
    ensures sound { IfSome result IsTickLength }
{
    if is_percentage(up) && is_percentage(down) {
        Some(TickLength { up, down })
    } else {
        None
    }
}
