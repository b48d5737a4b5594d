//! What the numbers of LT and UL ask for, or `None` if they are wrong.
ghost use Rattle.std.specs.Prelude.{◌≡◌, ◌≤◌, nat_abs, IfSome, map, take, length};
ghost use Rattle.full_settings.specs.LineStyles.{IsLineSetting};
ghost use Rattle.full_settings.specs.LineParameters as parameters;

use crate::line_setting::{LineSetting, PatternLength};
use hpgl_text::{Number, Numbers};
use line_types::{MOST_GAPS, Pattern};
use plot_settings::whole_number;

/// LT type, length, mode (Line Type): solid lines if no number is there, and the type before if the
/// type is 99. `None` if another type is not -8 to 8, the length is not above 0, or the mode is not 0
/// or 1.
pub fn line_type_setting(numbers: &[Number]) -> Option<LineSetting>
    ensures value { result ≡ parameters.line_type numbers.now }
    ensures sound { IfSome result IsLineSetting }
{
    match numbers {
        [] => Some(LineSetting::Solid),
        [kind, rest @ ..] => match whole_number(*kind) {
            99 => Some(LineSetting::Again),
            n => type_given(n, rest),
        },
    }
}

// A type, with the length and the mode that follow it.
fn type_given(n: i64, rest: &[Number]) -> Option<LineSetting>
    ensures value { result ≡ parameters.type_given n rest.now }
    ensures sound { IfSome result IsLineSetting }
{
    if n < -8 || n > 8 {
        None
    } else {
        typed(n as i8, rest)
    }
}

fn typed(n: i8, rest: &[Number]) -> Option<LineSetting>
    requires { nat_abs n ≤ 8 }
    ensures value { result ≡ parameters.typed n rest.now }
    ensures sound { IfSome result IsLineSetting }
{
    match rest {
        [] => Some(LineSetting::Type(n)),
        [size] => with_length(n, length_given(size.millionths(), 0)),
        [size, mode, ..] => with_length(n, length_given(size.millionths(), whole_number(*mode))),
    }
}

fn with_length(n: i8, length: Option<PatternLength>) -> Option<LineSetting>
    requires { nat_abs n ≤ 8 }
    ensures value { result ≡ parameters.with_length n length }
    ensures sound { IfSome result IsLineSetting }
{
    match length {
        Some(length) => Some(LineSetting::TypeAndLength(n, length)),
        None => None,
    }
}

// A length in millionths: percent of the distance from P1 to P2 in mode 0, millimetres in mode 1.
fn length_given(size: i64, mode: i64) -> Option<PatternLength>
    ensures { result ≡ parameters.length_given size mode }
{
    if size <= 0 {
        return None;
    }
    match mode {
        0 => Some(PatternLength::Percent(size.unsigned_abs())),
        1 => Some(PatternLength::Millimetres(size.unsigned_abs())),
        _ => None,
    }
}

/// UL index, gaps (User-Defined Line Type): the pattern of the types whose number is the index or its
/// opposite, by at most 20 gaps; without gaps their usual patterns, and without an index those of all
/// types. `None` if the index is not 1 to 8 either side of 0, a gap is below 0, or all are 0.
pub fn user_line_setting(numbers: &Numbers<'_>) -> Option<LineSetting>
    ensures value { result ≡ parameters.user_line_type numbers.now }
    ensures sound { IfSome result IsLineSetting }
{
    let mut rest = numbers.iter();
    let Some(index) = rest.next() else {
        return Some(LineSetting::UsualPatterns);
    };
    let n = whole_number(index).unsigned_abs();
    if n < 1 || n > 8 {
        return None;
    }
    pattern_given(n as u8, rest)
}

// The pattern of type n that gaps make.
fn pattern_given(n: u8, gaps: Numbers<'_>) -> Option<LineSetting>
    requires from { 1 ≤ n }
    requires to { n ≤ 8 }
    ensures value { result ≡ parameters.pattern_given n gaps.entry }
    ensures sound { IfSome result IsLineSetting }
{
    if gaps.len() == 0 {
        return Some(LineSetting::UsualPattern(n));
    }
    let (list, count) = first_gaps(gaps);
    own_pattern(n, pattern_of(&list[..count]))
}

fn own_pattern(n: u8, pattern: Option<Pattern>) -> Option<LineSetting>
    requires from { 1 ≤ n }
    requires to { n ≤ 8 }
    ensures value { result ≡ parameters.own_pattern n pattern }
    ensures sound { IfSome result IsLineSetting }
{
    match pattern {
        Some(pattern) => Some(LineSetting::OwnPattern(n, pattern)),
        None => None,
    }
}

// The first 20 gaps in millionths, or all if they are fewer, and how many these are.
fn first_gaps(gaps: Numbers<'_>) -> ([i64; MOST_GAPS], usize)
    ensures values { take result.1 result.0 ≡ take 20 gaps.entry }
    ensures count { result.1 ≤ 20 }
{
    let mut list = [0; MOST_GAPS];
    let mut count = 0;
    let mut rest = gaps;
    'list: while count < MOST_GAPS {
        let Some(gap) = rest.next() else {
            return (list, count);
        };
        list[count] = gap.millionths();
        count += 1;
    }
    (list, count)
}

// The pattern of at most 20 gaps in millionths.
fn pattern_of(gaps: &[i64]) -> Option<Pattern>
    requires { length gaps.now ≤ 20 }
    ensures { result ≡ parameters.gaps_given gaps.now }
{
    if are_positive(gaps) {
        let sizes = sizes_of(gaps);
        Pattern::new(&sizes[..gaps.len()])
    } else {
        None
    }
}

// Whether no gap is below 0.
fn are_positive(gaps: &[i64]) -> bool
    ensures { result ≡ parameters.are_positive gaps.now }
{
    for gap in gaps {
        if *gap < 0 {
            return false;
        }
    }
    true
}

// The sizes of gaps, with 0 after them.
fn sizes_of(gaps: &[i64]) -> [u64; MOST_GAPS]
    requires { length gaps.now ≤ 20 }
    ensures { take (length gaps.now) result ≡ map nat_abs gaps.now }
{
    let mut sizes = [0; MOST_GAPS];
    for (j, gap) in gaps.iter().enumerate() {
        sizes[j] = gap.unsigned_abs();
    }
    sizes
}
