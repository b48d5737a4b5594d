//! What the parameters of an instruction set, or `None` if they are wrong. A parameter that is a whole
//! number in the guide is rounded before it is tested; every other one is tested as written.
ghost use Rattle.std.specs.Prelude.{◌≡◌, ◌≤◌, ◌^◌, ◌&&◌, pos, nat_abs, true};
ghost use Rattle.plot_settings.specs.Colours.{rgb};
ghost use Rattle.plot_settings.specs.Colours as colours;
ghost use Rattle.plot_settings.specs.Parameters as parameters;
ghost use Rattle.plot_settings.specs.declared.setting.Setting.TheVariants as setting;

use crate::palette::{FIRST_WIDTH, default_colour};
use crate::setting::{Corners, Rotation, Setting};
use exact::rounded;
use hpgl_text::Number;
use plot_frame::{Ends, Factor, FittedRange, Pair, Range, Scaling};
use plot_page::Colour;

// Half of all that is left over, in millionths of a percent.
const HALF: i64 = 50_000_000;

/// A number rounded to a whole one, the upper one of two.
pub fn whole_number(number: Number) -> i64
    ensures value { result ≡ parameters.whole_of number }
    ensures bound { nat_abs result ≤ 2 ^ 36 }
{
    rounded(i128::from(number.millionths()), 1_000_000) as i64
}

/// SP pen (Select Pen): the pen, 0 to 255, or 0 if none is named. `None` if the number is out of
/// range.
pub fn pen_setting(numbers: &[Number]) -> Option<Setting>
    ensures { result ≡ parameters.selected_pen numbers.now }
{
    match numbers {
        [] => Some(Setting::Pen(0)),
        [pen, ..] => pen_of(whole_number(*pen)),
    }
}

fn pen_of(pen: i64) -> Option<Setting>
    ensures { result ≡ parameters.when (parameters.is_byte pen) (setting.Pen (nat_abs pen)) }
{
    if is_byte(pen) {
        Some(Setting::Pen(pen as u8))
    } else {
        None
    }
}

// Whether a pen, or the red, green or blue of a colour, may have this number.
fn is_byte(number: i64) -> bool
    ensures { result ≡ parameters.is_byte number }
{
    0 <= number && number <= 255
}

/// PW width, pen (Pen Width): the width, 0 to 20 millimetres, in grains of 1/16 plotter unit, for
/// one pen, 0 to 255, or for all if none is named. Without a width all pens get `FIRST_WIDTH`.
/// `None` if a number is out of range.
pub fn width_setting(numbers: &[Number]) -> Option<Setting>
    ensures { result ≡ parameters.pen_width_setting numbers.now }
{
    match numbers {
        [] => Some(Setting::WidthOfAll(FIRST_WIDTH)),
        [width] => width_of_all(*width),
        [width, pen, ..] => width_of_pen(*width, whole_number(*pen)),
    }
}

fn width_of_all(width: Number) -> Option<Setting>
    ensures { result ≡
        parameters.when (parameters.is_width width) (setting.WidthOfAll (parameters.width_grains width)) }
{
    if is_width_number(width) {
        Some(Setting::WidthOfAll(grains_of_width(width)))
    } else {
        None
    }
}

fn width_of_pen(width: Number, pen: i64) -> Option<Setting>
    ensures { result ≡
        parameters.when (parameters.is_width width && parameters.is_byte pen)
        (setting.Width (nat_abs pen) (parameters.width_grains width)) }
{
    if is_width_number(width) && is_byte(pen) {
        Some(Setting::Width(pen as u8, grains_of_width(width)))
    } else {
        None
    }
}

fn is_width_number(width: Number) -> bool
    ensures { result ≡ parameters.is_width width }
{
    let millionths = width.millionths();
    0 <= millionths && millionths <= 20_000_000
}

// Millionths of a millimetre as grains.
fn grains_of_width(width: Number) -> u32
    requires { parameters.is_width width ≡ true }
    ensures { result ≡ parameters.width_grains width }
{
    rounded(i128::from(640 * width.millionths()), 1_000_000) as u32
}

/// PC pen, red, green, blue (Pen Color Assignment): the colour of a pen, each number 0 to 255.
/// Without a colour the pen gets its default colour, and without a pen all pens get theirs. `None`
/// if a number is out of range, or if the colour has one or two numbers.
pub fn colour_setting(numbers: &[Number]) -> Option<Setting>
    ensures { result ≡ parameters.pen_colour_setting numbers.now }
{
    match numbers {
        [] => Some(Setting::DefaultColours),
        [pen] => default_colour_of_pen(whole_number(*pen)),
        [_, _] => None,
        [_, _, _] => None,
        [pen, red, green, blue, ..] => colour_of_pen(
            whole_number(*pen),
            whole_number(*red),
            whole_number(*green),
            whole_number(*blue),
        ),
    }
}

fn default_colour_of_pen(pen: i64) -> Option<Setting>
    ensures { result ≡
        parameters.when (parameters.is_byte pen)
        (setting.PenColour (nat_abs pen) (colours.default_colour (nat_abs pen))) }
{
    if is_byte(pen) {
        Some(Setting::PenColour(pen as u8, default_colour(pen as u8)))
    } else {
        None
    }
}

fn colour_of_pen(pen: i64, red: i64, green: i64, blue: i64) -> Option<Setting>
    ensures { result ≡ parameters.given_colour pen red green blue }
{
    if is_byte(pen) && is_byte(red) && is_byte(green) && is_byte(blue) {
        Some(Setting::PenColour(pen as u8, colour_by(red, green, blue)))
    } else {
        None
    }
}

fn colour_by(red: i64, green: i64, blue: i64) -> Colour
    requires red_in { parameters.is_byte red ≡ true }
    requires green_in { parameters.is_byte green ≡ true }
    requires blue_in { parameters.is_byte blue ≡ true }
    ensures { result ≡ rgb (nat_abs red) (nat_abs green) (nat_abs blue) }
{
    Colour {
        red: red as u8,
        green: green as u8,
        blue: blue as u8,
    }
}

/// RO angle (Rotate Coordinate System): 0, 90, 180 or 270 degrees, or 0 if none is named. `None`
/// for any other angle.
pub fn rotation_setting(numbers: &[Number]) -> Option<Setting>
    ensures { result ≡ parameters.rotated numbers.now }
{
    match numbers {
        [] => Some(Setting::Rotate(Rotation::None)),
        [angle, ..] => rotation_by(whole_number(*angle)),
    }
}

fn rotation_by(degrees: i64) -> Option<Setting>
    ensures { result ≡ parameters.rotation_set degrees }
{
    match degrees {
        0 => Some(Setting::Rotate(Rotation::None)),
        90 => Some(Setting::Rotate(Rotation::Quarter)),
        180 => Some(Setting::Rotate(Rotation::Half)),
        270 => Some(Setting::Rotate(Rotation::ThreeQuarters)),
        _ => None,
    }
}

/// IP x, y, x, y (Input P1 and P2): P1, or P1 and P2, in plotter units, or the corners of the page
/// if no number is there. If both have the same x or y, P2 gets one plotter unit more. `None` if
/// there are one or three numbers.
pub fn points_setting(numbers: &[Number]) -> Option<Setting>
    ensures { result ≡ parameters.scaling_points numbers.now }
{
    match numbers {
        [] => Some(Setting::PageCorners),
        [_] => None,
        [x, y] => Some(Setting::FirstPoint(whole_number(*x), whole_number(*y))),
        [_, _, _] => None,
        [ax, ay, bx, by, ..] => Some(Setting::BothPoints(points_at(
            whole_number(*ax),
            whole_number(*ay),
            whole_number(*bx),
            whole_number(*by),
        ))),
    }
}

fn points_at(ax: i64, ay: i64, bx: i64, by: i64) -> Pair<Ends>
    requires bx_in { nat_abs bx ≤ 2 ^ 36 }
    requires by_in { nat_abs by ≤ 2 ^ 36 }
    ensures { result ≡ parameters.points_at ax ay bx by }
{
    Pair {
        x: ends_at(ax, bx),
        y: ends_at(ay, by),
    }
}

// P1 and P2 on an axis: where both are the same, P2 gets one plotter unit more.
fn ends_at(first: i64, last: i64) -> Ends
    requires { nat_abs last ≤ 2 ^ 36 }
    ensures { result ≡ parameters.ends_at first last }
{
    if first == last {
        Ends {
            first,
            last: last + 1,
        }
    } else {
        Ends { first, last }
    }
}

/// IW x, y, x, y (Input Window): two opposite corners, in millionths of the current unit, or the
/// page if no number is there. `None` if there are one to three numbers.
pub fn window_setting(numbers: &[Number]) -> Option<Setting>
    ensures { result ≡ parameters.window_corners numbers.now }
{
    match numbers {
        [] => Some(Setting::PageWindow),
        [_] => None,
        [_, _] => None,
        [_, _, _] => None,
        [ax, ay, bx, by, ..] => Some(Setting::CornerWindow(Corners {
            ax: ax.millionths(),
            ay: ay.millionths(),
            bx: bx.millionths(),
            by: by.millionths(),
        })),
    }
}

/// SC xmin, xmax, ymin, ymax, type, left, bottom (Scale): the scaling of type 0, 1 or 2, with
/// coordinates and percentages in millionths, or none if no number is there. The type is 0 and a
/// percentage 50 if it is not named. `None` if there are one to three numbers, a range is empty, a
/// factor is 0, a percentage is not 0 to 100, or the type is another.
pub fn scaling_setting(numbers: &[Number]) -> Option<Setting>
    ensures { result ≡ parameters.user_scaling numbers.now }
{
    match numbers {
        [] => Some(Setting::Scale(Scaling::Off)),
        [_] => None,
        [_, _] => None,
        [_, _, _] => None,
        [a, b, c, d] => anisotropic(ranges_of(*a, *b, *c, *d)),
        [a, b, c, d, kind, rest @ ..] => {
            scaling_of_type(whole_number(*kind), ranges_of(*a, *b, *c, *d), rest)
        }
    }
}

fn scaling_of_type(kind: i64, ranges: Pair<Range>, percents: &[Number]) -> Option<Setting>
    ensures { result ≡ parameters.scaling_of_type kind ranges percents.now }
{
    match kind {
        0 => anisotropic(ranges),
        1 => isotropic(ranges, percents),
        2 => point_factor(ranges),
        _ => None,
    }
}

fn ranges_of(xmin: Number, xmax: Number, ymin: Number, ymax: Number) -> Pair<Range>
    ensures { result ≡ parameters.ranges_of xmin xmax ymin ymax }
{
    Pair {
        x: range_of(xmin, xmax),
        y: range_of(ymin, ymax),
    }
}

fn range_of(least: Number, most: Number) -> Range
    ensures { result ≡ record { least = least; most = most } }
{
    Range {
        least: least.millionths(),
        most: most.millionths(),
    }
}

// Type 0.
fn anisotropic(ranges: Pair<Range>) -> Option<Setting>
    ensures { result ≡ parameters.anisotropic ranges }
{
    if has_empty_range(ranges) {
        None
    } else {
        Some(Setting::Scale(Scaling::Anisotropic(ranges)))
    }
}

// Whether the least coordinate is the greatest, in x or in y.
fn has_empty_range(ranges: Pair<Range>) -> bool
    ensures { result ≡ parameters.has_empty_range ranges }
{
    ranges.x.least == ranges.x.most || ranges.y.least == ranges.y.most
}

// Type 1, with the percents that follow.
fn isotropic(ranges: Pair<Range>, percents: &[Number]) -> Option<Setting>
    ensures { result ≡ parameters.isotropic_by ranges percents.now }
{
    match percents {
        [] => fitted(ranges, HALF, HALF),
        [left] => fitted(ranges, left.millionths(), HALF),
        [left, bottom, ..] => fitted(ranges, left.millionths(), bottom.millionths()),
    }
}

fn fitted(ranges: Pair<Range>, left: i64, bottom: i64) -> Option<Setting>
    ensures { result ≡ parameters.isotropic ranges left bottom }
{
    if !has_empty_range(ranges) && is_percent(left) && is_percent(bottom) {
        Some(Setting::Scale(Scaling::Isotropic(Pair {
            x: FittedRange {
                range: ranges.x,
                share: left,
            },
            y: FittedRange {
                range: ranges.y,
                share: bottom,
            },
        })))
    } else {
        None
    }
}

fn is_percent(millionths: i64) -> bool
    ensures { result ≡ parameters.is_percent millionths }
{
    0 <= millionths && millionths <= 100_000_000
}

// Type 2, which has factors where the others have the greatest coordinates.
fn point_factor(numbers: Pair<Range>) -> Option<Setting>
    ensures { result ≡ parameters.point_factor numbers }
{
    if numbers.x.most == 0 || numbers.y.most == 0 {
        None
    } else {
        Some(Setting::Scale(Scaling::PointFactor(Pair {
            x: factor_of(numbers.x),
            y: factor_of(numbers.y),
        })))
    }
}

fn factor_of(numbers: Range) -> Factor
    ensures { result ≡ parameters.factor_of numbers }
{
    Factor {
        least: numbers.least,
        factor: numbers.most,
    }
}
