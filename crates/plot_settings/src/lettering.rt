//! What SI and DI set, or `None` if their parameters are wrong, and how a label is turned.
ghost use Rattle.std.specs.Prelude.{◌≡◌, ◌≤◌, ◌^◌, ◌&&◌, not, pos, nat_abs, true};
ghost use Rattle.std.specs.Ordering.{int_eq};
ghost use Rattle.plot_settings.specs.Parameters as parameters;
ghost use Rattle.plot_settings.specs.Slants.{is_slanted};
ghost use Rattle.plot_settings.specs.declared.setting.Setting.TheVariants.{Size, Direction};

use crate::setting::{Rotation, Setting};
use exact::rounded;
use hpgl_text::Number;
use stick_font::CharacterSize;

// The greatest width and height of characters, in millionths of a centimetre.
const GREATEST_SIZE: i64 = 40_000_000;

/// SI width, height (Absolute Character Size): the size of characters, in grains of 1/16 plotter
/// unit, or `CharacterSize::DEFAULT` if no number is there. `None` if the height is missing, or a
/// number is 0 or over 40 centimetres either side of 0.
pub fn size_setting(numbers: &[Number]) -> Option<Setting>
    ensures { result ≡ parameters.character_size numbers.now }
{
    match numbers {
        [] => Some(Setting::Size(CharacterSize::DEFAULT)),
        [_] => None,
        [width, height, ..] => size_by(*width, *height),
    }
}

fn size_by(width: Number, height: Number) -> Option<Setting>
    ensures { result ≡
        parameters.when (parameters.is_size width && parameters.is_size height)
        (Size (record { width = parameters.size_grains width; height = parameters.size_grains height })) }
{
    if is_size(width) && is_size(height) {
        Some(Setting::Size(CharacterSize {
            width: grains_of_size(width),
            height: grains_of_size(height),
        }))
    } else {
        None
    }
}

fn is_size(size: Number) -> bool
    ensures { result ≡ parameters.is_size size }
{
    let millionths = size.millionths();
    millionths != 0 && -GREATEST_SIZE <= millionths && millionths <= GREATEST_SIZE
}

// Millionths of a centimetre as grains.
fn grains_of_size(size: Number) -> i32
    requires { parameters.is_size size ≡ true }
    ensures { result ≡ parameters.size_grains size }
{
    rounded(i128::from(6400 * size.millionths()), 1_000_000) as i32
}

/// DI run, rise (Absolute Direction): how labels are turned: along the axis that is nearest to the
/// direction, that of the run if both are as near, or to the right if no number is there. `None` if
/// the rise is missing, or both are 0.
pub fn direction_setting(numbers: &[Number]) -> Option<Setting>
    ensures { result ≡ parameters.label_direction numbers.now }
{
    match numbers {
        [] => Some(Setting::Direction(Rotation::None)),
        [_] => None,
        [run, rise, ..] => direction_by(run.millionths(), rise.millionths()),
    }
}

fn direction_by(run: i64, rise: i64) -> Option<Setting>
    ensures { result ≡
        parameters.when (not (int_eq run (pos 0) && int_eq rise (pos 0)))
        (Direction (parameters.nearest_axis run rise)) }
{
    if run == 0 && rise == 0 {
        None
    } else {
        Some(Setting::Direction(nearest_axis(run, rise)))
    }
}

// The axis that is nearest to a direction: the run's, if both are as near.
fn nearest_axis(run: i64, rise: i64) -> Rotation
    ensures { result ≡ parameters.nearest_axis run rise }
{
    if rise.unsigned_abs() <= run.unsigned_abs() {
        if run < 0 {
            Rotation::Half
        } else {
            Rotation::None
        }
    } else if rise < 0 {
        Rotation::ThreeQuarters
    } else {
        Rotation::Quarter
    }
}

/// Whether the direction of a DI is along no axis.
pub fn is_slanted(numbers: &[Number]) -> bool
    ensures { result ≡ is_slanted numbers.now }
{
    match numbers {
        [] => false,
        [_] => false,
        [run, rise, ..] => run.millionths() != 0 && rise.millionths() != 0,
    }
}
