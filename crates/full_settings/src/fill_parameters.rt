//! What the numbers of FT set, or `None` if they are wrong.
ghost use Rattle.std.specs.Prelude.{◌≡◌, ◌≤◌, ◌^◌, pos, nat_abs, int_le, IfSome, Some};
ghost use Rattle.plot_settings.specs.Parameters.{when, is_percent};
ghost use Rattle.full_settings.specs.FillParameters as fills;
ghost use Rattle.full_settings.specs.FillParameters.{IsFillSetting};
ghost use Rattle.full_settings.specs.declared.fill_setting.FillSetting.TheVariants as setting;

use crate::fill_setting::FillSetting;
use crate::polygon_parameters::angle;
use hpgl_text::Number;
use plot_settings::whole_number;

/// FT type, spacing or level, angle (Fill Type): 1 or 2, solid, which is meant if none is named; 3, hatching,
/// or 4, cross-hatching, by spacing and angle; 10, shading, by a level; 11, 21 or 22, a pattern. `None` for
/// any other type, a spacing below 0, or a level that is not 0 to 100.
pub fn fill_type_setting(numbers: &[Number]) -> Option<FillSetting>
    ensures value { result ≡ fills.fill_type numbers.now }
    ensures sound { IfSome result IsFillSetting }
{
    match numbers {
        [] => Some(FillSetting::Solid),
        [kind, rest @ ..] => fill_of_type(whole_number(*kind), rest),
    }
}

fn fill_of_type(kind: i64, rest: &[Number]) -> Option<FillSetting>
    ensures value { result ≡ fills.fill_type_given kind rest.now }
    ensures sound { IfSome result IsFillSetting }
{
    match kind {
        1 | 2 => Some(FillSetting::Solid),
        3 => hatching(false, rest),
        4 => hatching(true, rest),
        10 => shading(rest),
        11 | 21 | 22 => Some(FillSetting::Pattern),
        _ => None,
    }
}

// Hatching, by its spacing and its angle.
fn hatching(is_crossed: bool, numbers: &[Number]) -> Option<FillSetting>
    ensures value { result ≡ fills.hatching is_crossed numbers.now }
    ensures sound { IfSome result IsFillSetting }
{
    match numbers {
        [] => Some(FillSetting::Hatched(is_crossed, None, None)),
        [spacing] => hatching_by(is_crossed, spacing.millionths(), None),
        [spacing, by, ..] => hatching_by(is_crossed, spacing.millionths(), Some(angle(*by))),
    }
}

fn hatching_by(is_crossed: bool, spacing: i64, angle: Option<u32>) -> Option<FillSetting>
    requires spacing_in { nat_abs spacing ≤ 2 ^ 55 }
    requires angle_in { IfSome angle fills.IsAngle }
    ensures value { result ≡ when (int_le (pos 0) spacing) (setting.Hatched is_crossed (Some (nat_abs spacing)) angle) }
    ensures sound { IfSome result IsFillSetting }
{
    if spacing < 0 {
        return None;
    }
    Some(FillSetting::Hatched(is_crossed, Some(spacing as u64), angle))
}

// Shading, by its level.
fn shading(numbers: &[Number]) -> Option<FillSetting>
    ensures value { result ≡ fills.shading numbers.now }
    ensures sound { IfSome result IsFillSetting }
{
    match numbers {
        [] => Some(FillSetting::Shaded(None)),
        [level, ..] => shading_by(level.millionths()),
    }
}

fn shading_by(level: i64) -> Option<FillSetting>
    ensures value { result ≡ when (is_percent level) (setting.Shaded (Some (nat_abs level))) }
    ensures sound { IfSome result IsFillSetting }
{
    if 0 <= level && level <= 100_000_000 {
        Some(FillSetting::Shaded(Some(level as u32)))
    } else {
        None
    }
}
