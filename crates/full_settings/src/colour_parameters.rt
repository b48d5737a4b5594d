//! What the numbers of CR and PC set, or `None` if they are wrong.
ghost use Rattle.std.specs.Prelude.{◌≡◌, ◌≢◌, ◌≤◌, ◌^◌, pos, nat_abs, IfSome};
ghost use Rattle.exact.specs.Fraction.{round, quotient};
ghost use Rattle.plot_settings.specs.Bounds.{IsSetting};
ghost use Rattle.plot_settings.specs.Parameters as parameters;
ghost use Rattle.full_settings.specs.ColourRanges as colours;
ghost use Rattle.full_settings.specs.ColourRanges.{IsColourRange, IsColourRanges};

use crate::colour_range::{ColourRange, ColourRanges};
use exact::rounded;
use hpgl_text::{Instruction, Number, Numbers};
use plot_page::Colour;
use plot_settings::{Request, Setting, request_of, whole_number};

/// CR red's black and white, green's, blue's (Set Color Range): six numbers, each rounded to a whole one, or
/// 0 and 255 for all if no number is there. `None` if there are one to five, or if black and white are the
/// same.
pub fn colour_ranges(numbers: &[Number]) -> Option<ColourRanges>
    ensures value { result ≡ colours.colour_ranges_of numbers.now }
    ensures sound { IfSome result IsColourRanges }
{
    match numbers {
        [] => Some(ColourRanges::usual()),
        [a, b, c, d, e, f, ..] => ranges_by(range_of(*a, *b), range_of(*c, *d), range_of(*e, *f)),
        _ => None,
    }
}

fn range_of(black: Number, white: Number) -> ColourRange
    ensures value { result ≡ colours.range (parameters.whole_of black) (parameters.whole_of white) }
    ensures black_in { nat_abs result.black ≤ 2 ^ 36 }
    ensures white_in { nat_abs result.white ≤ 2 ^ 36 }
{
    ColourRange {
        black: whole_number(black),
        white: whole_number(white),
    }
}

fn ranges_by(red: ColourRange, green: ColourRange, blue: ColourRange) -> Option<ColourRanges>
    requires red_black { nat_abs red.black ≤ 2 ^ 36 }
    requires red_white { nat_abs red.white ≤ 2 ^ 36 }
    requires green_black { nat_abs green.black ≤ 2 ^ 36 }
    requires green_white { nat_abs green.white ≤ 2 ^ 36 }
    requires blue_black { nat_abs blue.black ≤ 2 ^ 36 }
    requires blue_white { nat_abs blue.white ≤ 2 ^ 36 }
    ensures value { result ≡ colours.ranges_by red green blue }
    ensures sound { IfSome result IsColourRanges }
{
    if has_extent(red) && has_extent(green) && has_extent(blue) {
        Some(ColourRanges { red, green, blue })
    } else {
        None
    }
}

// Whether black and white differ.
fn has_extent(range: ColourRange) -> bool
    ensures { result ≡ colours.has_extent range }
{
    range.black != range.white
}

/// PC pen, red, green, blue (Pen Color Assignment), with these ranges: in the usual ones as in the profile
/// core. In others each of the three is put between black and white, and one past them is cut, so that only
/// the pen can be out of range; then the result is `None`. Fewer than four numbers are core's, too.
pub fn colour_in(ranges: &ColourRanges, numbers: &Numbers<'_>) -> Option<Setting>
    requires { IsColourRanges ranges.now }
    ensures value { result ≡ colours.pen_colour_in ranges.now numbers.now }
    ensures sound { IfSome result IsSetting }
{
    if ranges.is_usual() || numbers.len() < 4 {
        core_colour(numbers)
    } else {
        let (list, count) = numbers.leading();
        ranged(ranges, &list[..count])
    }
}

// What PC sets in the profile core.
fn core_colour(numbers: &Numbers<'_>) -> Option<Setting>
    ensures value { result ≡ parameters.pen_colour_setting numbers.now }
    ensures sound { IfSome result IsSetting }
{
    match request_of(Instruction::PenColour, numbers) {
        Request::Set(setting) => Some(setting),
        _ => None,
    }
}

// The colour of a pen, by four numbers.
fn ranged(ranges: &ColourRanges, numbers: &[Number]) -> Option<Setting>
    requires { IsColourRanges ranges.now }
    ensures value { result ≡ colours.ranged ranges.now numbers.now }
    ensures sound { IfSome result IsSetting }
{
    match numbers {
        [pen, red, green, blue, ..] => {
            colour_of_pen(ranges, whole_number(*pen), *red, *green, *blue)
        }
        _ => None,
    }
}

fn colour_of_pen(
    ranges: &ColourRanges,
    pen: i64,
    red: Number,
    green: Number,
    blue: Number,
) -> Option<Setting>
    requires { IsColourRanges ranges.now }
    ensures value { result ≡ colours.colour_by ranges.now pen red green blue }
    ensures sound { IfSome result IsSetting }
{
    if 0 <= pen && pen <= 255 {
        let colour = Colour {
            red: part(ranges.red, red),
            green: part(ranges.green, green),
            blue: part(ranges.blue, blue),
        };
        Some(Setting::PenColour(pen as u8, colour))
    } else {
        None
    }
}

// A red, green or blue: 0 if it is black, 255 if it is white.
fn part(range: ColourRange, value: Number) -> u8
    requires { IsColourRange range }
    ensures { result ≡ colours.colour_part range value }
{
    let from_black = value.millionths() - 1_000_000 * range.black;
    let extent = range.white - range.black;
    cut(nearest(255 * i128::from(from_black), 1_000_000 * i128::from(extent)))
}

// The whole number nearest to a / b.
fn nearest(a: i128, b: i128) -> i128
    requires a_in { nat_abs a ≤ 2 ^ 125 }
    requires b_in { nat_abs b ≤ 2 ^ 125 }
    requires b_not_0 { b ≢ pos 0 }
    ensures { result ≡ round (quotient a b) }
{
    if b < 0 {
        rounded(-a, -b)
    } else {
        rounded(a, b)
    }
}

fn cut(number: i128) -> u8
    ensures { result ≡ colours.cut number }
{
    if number < 0 {
        0
    } else if number > 255 {
        255
    } else {
        number as u8
    }
}
