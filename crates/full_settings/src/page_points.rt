//! What IR asks for, or `None` if its numbers are wrong, and the P1 and P2 that it sets on a page.
ghost use Rattle.std.specs.Prelude.{◌≡◌, ◌≤◌, ◌^◌, nat_abs, IfSome};
ghost use Rattle.plot_frame.specs.Bounds.{IsEnds};
ghost use Rattle.plot_settings.specs.Bounds.{IsSetting};
ghost use Rattle.plot_settings.specs.Parameters.{ends_at};
ghost use Rattle.full_settings.specs.LetterParameters.{IsPairWithin};
ghost use Rattle.full_settings.specs.RelativePoints as points;
ghost use Rattle.full_settings.specs.RelativePoints.{IsRelativePoints, side_part, setting_of};

use crate::percentages::is_percentage;
use exact::rounded;
use hpgl_text::Number;
use plot_frame::{Ends, Pair};
use plot_settings::Setting;

/// What IR (Input Relative P1 and P2) asks for, in millionths of a percent of the page's width and height;
/// within 1000 percent of 0.
#[derive(Clone, Copy, Debug)]
pub enum RelativePoints {
    /// IR without numbers: P1 and P2 are the corners of the page.
    Page,
    /// IR with two: P1, from which P2 keeps its distance.
    First(Pair<i64>),
    /// IR with four: P1 and P2.
    Both(Pair<i64>, Pair<i64>),
}

/// IR x, y, x, y (Input Relative P1 and P2): P1, or P1 and P2, in percent of the page, or its corners if no
/// number is there. `None` if there are one or three numbers, or one is not -1000 to 1000.
pub fn relative_points(numbers: &[Number]) -> Option<RelativePoints>
    ensures value { result ≡ points.relative_points numbers.now }
    ensures sound { IfSome result IsRelativePoints }
{
    match numbers {
        [] => Some(RelativePoints::Page),
        [_] => None,
        [x, y] => first_point(point(*x, *y)),
        [_, _, _] => None,
        [ax, ay, bx, by, ..] => both_points(point(*ax, *ay), point(*bx, *by)),
    }
}

// A point in percent of the page.
fn point(x: Number, y: Number) -> Option<Pair<i64>>
    ensures value { result ≡ points.relative_point x y }
    ensures sound { IfSome result (IsPairWithin (10 ^ 9)) }
{
    let (x, y) = (x.millionths(), y.millionths());
    if is_percentage(x) && is_percentage(y) {
        Some(Pair { x, y })
    } else {
        None
    }
}

fn first_point(point: Option<Pair<i64>>) -> Option<RelativePoints>
    requires { IfSome point (IsPairWithin (10 ^ 9)) }
    ensures value { result ≡ points.first_point point }
    ensures sound { IfSome result IsRelativePoints }
{
    match point {
        Some(p) => Some(RelativePoints::First(p)),
        None => None,
    }
}

fn both_points(first: Option<Pair<i64>>, last: Option<Pair<i64>>) -> Option<RelativePoints>
    requires first_in { IfSome first (IsPairWithin (10 ^ 9)) }
    requires last_in { IfSome last (IsPairWithin (10 ^ 9)) }
    ensures value { result ≡ points.both_points first last }
    ensures sound { IfSome result IsRelativePoints }
{
    match (first, last) {
        (Some(p), Some(q)) => Some(RelativePoints::Both(p, q)),
        _ => None,
    }
}

/// What an IR sets on a page that is `width` by `height` plotter units as it is turned, each 524288 at most,
/// with the corner (-`left`, -`below`), each 524288 at most.
pub fn points_of(points: RelativePoints, width: u32, height: u32, left: u32, below: u32) -> Setting
    requires points_in { IsRelativePoints points }
    requires width_in { width ≤ 524288 }
    requires height_in { height ≤ 524288 }
    requires left_in { left ≤ 524288 }
    requires below_in { below ≤ 524288 }
    ensures value { result ≡ setting_of points width height left below }
    ensures sound { IsSetting result }
{
    match points {
        RelativePoints::Page => Setting::PageCorners,
        RelativePoints::First(p) => {
            Setting::FirstPoint(side_part(p.x, width, left), side_part(p.y, height, below))
        }
        RelativePoints::Both(p, q) => Setting::BothPoints(Pair {
            x: ends_of(p.x, q.x, width, left),
            y: ends_of(p.y, q.y, height, below),
        }),
    }
}

// Millionths of a percent of a side of the page, which begins `before` plotter units before 0, as a
// coordinate in plotter units.
fn side_part(percent: i64, side: u32, before: u32) -> i64
    requires percent_in { nat_abs percent ≤ 1000000000 }
    requires side_in { side ≤ 524288 }
    requires before_in { before ≤ 524288 }
    ensures value { result ≡ side_part percent side before }
    ensures most { nat_abs result ≤ 2 ^ 23 }
{
    rounded(i128::from(percent) * i128::from(side), 100_000_000) as i64 - i64::from(before)
}

// P1 and P2 on an axis, by their percentages.
fn ends_of(first: i64, last: i64, side: u32, before: u32) -> Ends
    requires first_in { nat_abs first ≤ 1000000000 }
    requires last_in { nat_abs last ≤ 1000000000 }
    requires side_in { side ≤ 524288 }
    requires before_in { before ≤ 524288 }
    ensures value { result ≡ ends_at (side_part first side before) (side_part last side before) }
    ensures sound { IsEnds result }
{
    ends_at(
        side_part(first, side, before),
        side_part(last, side, before),
    )
}

// P1 and P2 on an axis: where both are the same, P2 gets one plotter unit more.
fn ends_at(first: i64, last: i64) -> Ends
    requires first_in { nat_abs first ≤ 2 ^ 23 }
    requires last_in { nat_abs last ≤ 2 ^ 23 }
    ensures value { result ≡ ends_at first last }
    ensures sound { IsEnds result }
{
    Ends {
        first,
        last: if first == last { last + 1 } else { last },
    }
}
