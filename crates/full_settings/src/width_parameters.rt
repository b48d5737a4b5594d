//! What the numbers of WU, PT and a PW in percent ask for, or `None` if they are wrong.
ghost use Rattle.std.specs.Prelude.{◌≡◌, ◌&&◌, nat_abs, IfSome};
ghost use Rattle.plot_settings.specs.Parameters as settings;
ghost use Rattle.full_settings.specs.Widths.{IsWidthSetting};
ghost use Rattle.full_settings.specs.WidthParameters as parameters;
ghost use Rattle.full_settings.specs.declared.width_setting.WidthSetting.TheVariants as setting;

use crate::width_setting::WidthSetting;
use exact::rounded;
use hpgl_text::Number;
use plot_settings::whole_number;

// The width of all pens after WU1, and after a PW in percent without numbers: 0.1 percent.
const USUAL_PERCENT: u32 = 100_000;

// The width of a PT without a number: 0.3 mm.
const USUAL_THICKNESS: u32 = 192;

/// WU unit (Pen Width Unit Selection): 0 for millimetres, 1 for percent of the distance from P1 to P2.
/// `None` for any other unit.
pub fn width_unit_setting(numbers: &[Number]) -> Option<WidthSetting>
    ensures value { result ≡ parameters.width_unit numbers.now }
    ensures sound { IfSome result IsWidthSetting }
{
    match numbers {
        [] => Some(WidthSetting::Millimetres),
        [unit, ..] => match whole_number(*unit) {
            0 => Some(WidthSetting::Millimetres),
            1 => Some(WidthSetting::PercentOfAll(USUAL_PERCENT)),
            _ => None,
        },
    }
}

/// PW percent, pen (Pen Width), while widths are in percent: 0 to 100 percent of the distance from P1
/// to P2, for one pen, 0 to 255, or for all if none is named. `None` if a number is out of range.
pub fn percent_setting(numbers: &[Number]) -> Option<WidthSetting>
    ensures value { result ≡ parameters.percent_width numbers.now }
    ensures sound { IfSome result IsWidthSetting }
{
    match numbers {
        [] => Some(WidthSetting::PercentOfAll(USUAL_PERCENT)),
        [percent] => {
            if is_percent(percent.millionths()) {
                Some(WidthSetting::PercentOfAll(percent.millionths() as u32))
            } else {
                None
            }
        }
        [percent, pen, ..] => percent_of_pen(percent.millionths(), whole_number(*pen)),
    }
}

fn percent_of_pen(percent: i64, pen: i64) -> Option<WidthSetting>
    ensures value { result ≡
        settings.when (settings.is_percent percent && settings.is_byte pen)
        (setting.Percent (nat_abs pen) (nat_abs percent)) }
    ensures sound { IfSome result IsWidthSetting }
{
    if is_percent(percent) && 0 <= pen && pen <= 255 {
        Some(WidthSetting::Percent(pen as u8, percent as u32))
    } else {
        None
    }
}

fn is_percent(millionths: i64) -> bool
    ensures { result ≡ settings.is_percent millionths }
{
    0 <= millionths && millionths <= 100_000_000
}

/// PT width (Pen Thickness): the width of the selected pen, 0 to 20 millimetres. `None` if it is out
/// of range.
pub fn thickness_setting(numbers: &[Number]) -> Option<WidthSetting>
    ensures value { result ≡ parameters.thickness numbers.now }
    ensures sound { IfSome result IsWidthSetting }
{
    match numbers {
        [] => Some(WidthSetting::Thickness(USUAL_THICKNESS)),
        [width, ..] => thickness_of(width.millionths()),
    }
}

// A width in millionths of a millimetre, which has 640 grains.
fn thickness_of(width: i64) -> Option<WidthSetting>
    ensures value { result ≡
        settings.when (settings.is_width width) (setting.Thickness (settings.width_grains width)) }
    ensures sound { IfSome result IsWidthSetting }
{
    if 0 <= width && width <= 20_000_000 {
        Some(WidthSetting::Thickness(rounded(i128::from(640 * width), 1_000_000) as u32))
    } else {
        None
    }
}
