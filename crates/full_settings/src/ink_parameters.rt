//! What the numbers of TR and SV ask for, or `None` if they are wrong.
ghost use Rattle.std.specs.Prelude.{◌≡◌};
ghost use Rattle.full_settings.specs.InkParameters as inks;

use crate::ink_setting::InkSetting;
use hpgl_text::Number;
use plot_settings::whole_number;

// The level of a screen if none is named, and the greatest.
const USUAL_LEVEL: u32 = 50_000_000;

const GREATEST_LEVEL: i64 = 100_000_000;

/// TR mode (Transparency Mode): whether white strokes and areas are not there; they are not if no number is
/// there. `None` if it is not 0 or 1.
pub fn transparency_setting(numbers: &[Number]) -> Option<InkSetting>
    ensures { result ≡ inks.transparency numbers.now }
{
    match numbers {
        [] => Some(InkSetting::HidesWhite(true)),
        [number, ..] => match whole_number(*number) {
            0 => Some(InkSetting::HidesWhite(false)),
            1 => Some(InkSetting::HidesWhite(true)),
            _ => None,
        },
    }
}

/// SV screen, level (Screened Vectors): off if no number is there. `None` if there is no such screen, or if the
/// level is not 0 to 100.
pub fn screen_setting(numbers: &[Number]) -> Option<InkSetting>
    ensures { result ≡ inks.screen numbers.now }
{
    match numbers {
        [] => Some(InkSetting::Screen(None)),
        [number, levels @ ..] => screen_by(whole_number(*number), levels),
    }
}

fn screen_by(number: i64, levels: &[Number]) -> Option<InkSetting>
    ensures { result ≡ inks.screen_by number levels.now }
{
    match number {
        0 => Some(InkSetting::Screen(None)),
        1 => screen_level(levels),
        2 | 11 | 21 | 22 => Some(InkSetting::OtherScreen),
        _ => None,
    }
}

// How much of a colour is left.
fn screen_level(levels: &[Number]) -> Option<InkSetting>
    ensures { result ≡ inks.screen_level levels.now }
{
    match levels {
        [] => Some(InkSetting::Screen(Some(USUAL_LEVEL))),
        [level, ..] => level_by(level.millionths()),
    }
}

fn level_by(millionths: i64) -> Option<InkSetting>
    ensures { result ≡ inks.level_by millionths }
{
    if 0 <= millionths && millionths <= GREATEST_LEVEL {
        Some(InkSetting::Screen(Some(millionths as u32)))
    } else {
        None
    }
}
