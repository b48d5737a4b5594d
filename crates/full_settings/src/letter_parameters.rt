//! What the numbers of SR, SL, DI, DR, ES, LO and DV ask for, or `None` if they are wrong.
ghost use Rattle.std.specs.Prelude.{◌≡◌, ◌≤◌, ◌^◌, ◌&&◌, nat_abs, IfSome};
ghost use Rattle.plot_settings.specs.Parameters.{when};
ghost use Rattle.full_settings.specs.LetterParameters as parameters;
ghost use Rattle.full_settings.specs.LetterParameters.{IsLetterSetting, IsHeading, pair_of};
ghost use Rattle.full_settings.specs.declared.letter_setting.LetterSetting.TheVariants as setting;

use crate::letter_setting::LetterSetting;
use crate::percentages::is_percentage;
use hpgl_text::Number;
use lettering::{LineFeed, Path};
use plot_frame::Pair;
use plot_settings::whole_number;

// To the right.
const RIGHT: Pair<i64> = Pair { x: 1_000_000, y: 0 };

/// SR width, height (Relative Character Size): percentages of the distances from P1 to P2, or 0.75 and 1.5
/// if no number is there. `None` if the height is missing, or a number is 0 or not -1000 to 1000.
pub fn relative_size_setting(numbers: &[Number]) -> Option<LetterSetting>
    ensures value { result ≡ parameters.relative_size numbers.now }
    ensures sound { IfSome result IsLetterSetting }
{
    match numbers {
        [] => Some(LetterSetting::RelativeSize(Pair {
            x: 750_000,
            y: 1_500_000,
        })),
        [_] => None,
        [width, height, ..] => relative_size_by(width.millionths(), height.millionths()),
    }
}

fn relative_size_by(width: i64, height: i64) -> Option<LetterSetting>
    ensures value { result ≡
        when (parameters.is_relative_size width && parameters.is_relative_size height)
        (setting.RelativeSize (pair_of width height)) }
    ensures sound { IfSome result IsLetterSetting }
{
    if is_relative_size(width) && is_relative_size(height) {
        Some(LetterSetting::RelativeSize(Pair {
            x: width,
            y: height,
        }))
    } else {
        None
    }
}

fn is_relative_size(millionths: i64) -> bool
    ensures { result ≡ parameters.is_relative_size millionths }
{
    millionths != 0 && is_percentage(millionths)
}

/// SL tangent (Character Slant): the tangent of the slant, or 0 if no number is there. `None` if it is not
/// -1000 to 1000.
pub fn slant_setting(numbers: &[Number]) -> Option<LetterSetting>
    ensures value { result ≡ parameters.slant numbers.now }
    ensures sound { IfSome result IsLetterSetting }
{
    match numbers {
        [] => Some(LetterSetting::Slant(0)),
        [tangent, ..] => slant_by(tangent.millionths()),
    }
}

fn slant_by(tangent: i64) -> Option<LetterSetting>
    ensures value { result ≡ when (parameters.is_tangent tangent) (setting.Slant tangent) }
    ensures sound { IfSome result IsLetterSetting }
{
    if -1_000_000_000 <= tangent && tangent <= 1_000_000_000 {
        Some(LetterSetting::Slant(tangent))
    } else {
        None
    }
}

/// DI run, rise (Absolute Direction): where labels lead, or to the right if no number is there. `None` if
/// the rise is missing, or both are 0.
pub fn direction_setting(numbers: &[Number]) -> Option<LetterSetting>
    ensures value { result ≡ parameters.letter_direction numbers.now }
    ensures sound { IfSome result IsLetterSetting }
{
    match numbers {
        [] => Some(LetterSetting::Direction(RIGHT)),
        [_] => None,
        [run, rise, ..] => match heading_by(run.millionths(), rise.millionths()) {
            Some(heading) => Some(LetterSetting::Direction(heading)),
            None => None,
        },
    }
}

/// DR run, rise (Relative Direction): where labels lead, by percentages of the distances from P1 to P2, or
/// to the right if no number is there. `None` if the rise is missing, or both are 0.
pub fn relative_direction_setting(numbers: &[Number]) -> Option<LetterSetting>
    ensures value { result ≡ parameters.relative_direction numbers.now }
    ensures sound { IfSome result IsLetterSetting }
{
    match numbers {
        [] => Some(LetterSetting::RelativeDirection(RIGHT)),
        [_] => None,
        [run, rise, ..] => match heading_by(run.millionths(), rise.millionths()) {
            Some(heading) => Some(LetterSetting::RelativeDirection(heading)),
            None => None,
        },
    }
}

// A run and a rise, unless both are 0.
fn heading_by(run: i64, rise: i64) -> Option<Pair<i64>>
    requires run_in { nat_abs run ≤ 2 ^ 55 }
    requires rise_in { nat_abs rise ≤ 2 ^ 55 }
    ensures value { result ≡ when (parameters.is_vector run rise) (pair_of run rise) }
    ensures sound { IfSome result IsHeading }
{
    if run == 0 && rise == 0 {
        None
    } else {
        Some(Pair { x: run, y: rise })
    }
}

/// ES spaces, lines (Extra Space): how many widths and heights of a cell are added to the steps to the next
/// letter and to the next line; a number that is not there is 0. `None` if one is not -100 to 100.
pub fn space_setting(numbers: &[Number]) -> Option<LetterSetting>
    ensures value { result ≡ parameters.space numbers.now }
    ensures sound { IfSome result IsLetterSetting }
{
    match numbers {
        [] => step_by(0, 0),
        [spaces] => step_by(spaces.millionths(), 0),
        [spaces, lines, ..] => step_by(spaces.millionths(), lines.millionths()),
    }
}

fn step_by(spaces: i64, lines: i64) -> Option<LetterSetting>
    ensures value { result ≡ parameters.spacing_by spaces lines }
    ensures sound { IfSome result IsLetterSetting }
{
    if is_space(spaces) && is_space(lines) {
        Some(LetterSetting::Step(Pair {
            x: 1_000_000 + spaces,
            y: 1_000_000 + lines,
        }))
    } else {
        None
    }
}

fn is_space(millionths: i64) -> bool
    ensures { result ≡ parameters.is_space millionths }
{
    -100_000_000 <= millionths && millionths <= 100_000_000
}

/// LO position (Label Origin): 1 to 9, 11 to 19, or 21, which is 1; 1 if no number is there. `None` for any
/// other position.
pub fn origin_setting(numbers: &[Number]) -> Option<LetterSetting>
    ensures value { result ≡ parameters.letter_origin numbers.now }
    ensures sound { IfSome result IsLetterSetting }
{
    match numbers {
        [] => Some(LetterSetting::Origin(1)),
        [position, ..] => origin_by(whole_number(*position)),
    }
}

fn origin_by(position: i64) -> Option<LetterSetting>
    ensures value { result ≡ parameters.origin_by position }
    ensures sound { IfSome result IsLetterSetting }
{
    if position == 21 {
        Some(LetterSetting::Origin(1))
    } else if is_origin(position) {
        Some(LetterSetting::Origin(position as u8))
    } else {
        None
    }
}

fn is_origin(position: i64) -> bool
    ensures { result ≡ parameters.is_origin position }
{
    (1 <= position && position <= 9) || (11 <= position && position <= 19)
}

/// DV path, line (Define Variable Text Path): where the next letter is, 0 to the right, 1 down, 2 to the
/// left or 3 up, and the side of the next line, 0 or 1 for a reverse line feed; a number that is not there
/// is 0. `None` for any other number.
pub fn path_setting(numbers: &[Number]) -> Option<LetterSetting>
    ensures value { result ≡ parameters.text_path numbers.now }
    ensures sound { IfSome result IsLetterSetting }
{
    match numbers {
        [] => path_and_line(path_by(0), line_by(0)),
        [path] => path_and_line(path_by(whole_number(*path)), line_by(0)),
        [path, line, ..] => path_and_line(
            path_by(whole_number(*path)),
            line_by(whole_number(*line)),
        ),
    }
}

fn path_and_line(path: Option<Path>, line: Option<LineFeed>) -> Option<LetterSetting>
    ensures value { result ≡ parameters.path_and_line path line }
    ensures sound { IfSome result IsLetterSetting }
{
    match (path, line) {
        (Some(path), Some(line)) => Some(LetterSetting::Path(path, line)),
        _ => None,
    }
}

fn path_by(number: i64) -> Option<Path>
    ensures { result ≡ parameters.path_by number }
{
    match number {
        0 => Some(Path::Right),
        1 => Some(Path::Down),
        2 => Some(Path::Left),
        3 => Some(Path::Up),
        _ => None,
    }
}

fn line_by(number: i64) -> Option<LineFeed>
    ensures { result ≡ parameters.line_feed_by number }
{
    match number {
        0 => Some(LineFeed::Normal),
        1 => Some(LineFeed::Reverse),
        _ => None,
    }
}
