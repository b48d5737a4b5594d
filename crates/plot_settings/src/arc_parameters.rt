//! What the parameters of CI, AA and AR ask for, or `None` if they are wrong.
ghost use Rattle.std.specs.Prelude.{◌≡◌, ◌≤◌, ◌^◌, nat_abs, IfSome};
ghost use Rattle.plot_settings.specs.Parameters as parameters;
ghost use Rattle.plot_settings.specs.Bounds.{IsCircle, IsArc};

use crate::figure::{Arc, Circle};
use exact::rounded;
use hpgl_text::Number;

// The angle of a chord if none is named, in thousandths of a degree.
const DEFAULT_CHORD: i64 = 5_000;

/// A number rounded to thousandths, the upper one of two.
pub fn thousandths(number: Number) -> i64
    ensures { result ≡ parameters.thousandths_of number }
{
    rounded(i128::from(number.millionths()), 1_000) as i64
}

/// Whether a chord may have this angle, in thousandths of a degree: 0.5 to 180 degrees.
pub fn is_chord(thousandths: i64) -> bool
    ensures { result ≡ parameters.is_chord thousandths }
{
    500 <= thousandths && thousandths <= 180_000
}

fn is_sweep(thousandths: i64) -> bool
    ensures { result ≡ parameters.is_sweep thousandths }
{
    -360_000 <= thousandths && thousandths <= 360_000
}

/// CI radius, chord (Circle): the circle, with its radius in millionths of the current unit. A
/// chord has 0.5 to 180 degrees, rounded to thousandths before they are tested, and 5 if none is
/// named. `None` if the radius is missing, or the chord is out of range.
pub fn circle_from(numbers: &[Number]) -> Option<Circle>
    ensures value { result ≡ parameters.circled numbers.now }
    ensures sound { IfSome result (λ c. IsCircle c) }
{
    match numbers {
        [] => None,
        [radius] => circle_of(*radius, DEFAULT_CHORD),
        [radius, chord, ..] => circle_of(*radius, thousandths(*chord)),
    }
}

fn circle_of(radius: Number, chord: i64) -> Option<Circle>
    ensures value { result ≡ parameters.circle_of radius chord }
    ensures sound { IfSome result (λ c. IsCircle c) }
{
    if is_chord(chord) {
        Some(Circle {
            radius: radius.millionths(),
            chord: chord as u32,
        })
    } else {
        None
    }
}

/// AA and AR x, y, sweep, chord (Arc Absolute, Arc Relative): the arc, with its centre in
/// millionths of the current unit. The sweep is -360 to 360 degrees and a chord 0.5 to 180, rounded
/// to thousandths before they are tested; a chord has 5 if none is named. `None` if a number before
/// the chord is missing, or an angle is out of range.
pub fn arc_from(numbers: &[Number]) -> Option<Arc>
    ensures value { result ≡ parameters.arced numbers.now }
    ensures sound { IfSome result (λ a. IsArc a) }
{
    match numbers {
        [] => None,
        [_] => None,
        [_, _] => None,
        [x, y, sweep] => arc_of(*x, *y, thousandths(*sweep), DEFAULT_CHORD),
        [x, y, sweep, chord, ..] => arc_of(*x, *y, thousandths(*sweep), thousandths(*chord)),
    }
}

fn arc_of(x: Number, y: Number, sweep: i64, chord: i64) -> Option<Arc>
    ensures value { result ≡ parameters.arc_of x y sweep chord }
    ensures sound { IfSome result (λ a. IsArc a) }
{
    if is_sweep(sweep) && is_chord(chord) {
        Some(Arc {
            x: x.millionths(),
            y: y.millionths(),
            sweep: sweep as i32,
            chord: chord as u32,
        })
    } else {
        None
    }
}
