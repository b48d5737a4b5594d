//! What the numbers of AT, RT, BZ and BR ask for, or `None` if they are wrong.
ghost use Rattle.std.specs.Prelude.{◌≡◌, ◌∷◌, [], IfSome, IsNone};
ghost use Rattle.full_settings.specs.CurveParameters as curves;

use crate::points::{ArcPoints, CurvePoints, Point};
use hpgl_text::{Number, Numbers};
use plot_settings::{is_chord, thousandths};

/// AT and RT x, y, x, y, chord (Arc Three Point): a point on the way and the end. The chord's angle is not
/// used. `None` if a coordinate is missing, or a chord is there that is not 0.5 to 180 degrees.
pub fn arc_points(numbers: &[Number]) -> Option<ArcPoints>
    ensures { result ≡ curves.arc_points numbers.now }
{
    match numbers {
        [ax, ay, bx, by, chord @ ..] if is_chord_given(chord) => Some(ArcPoints {
            through: Point { x: *ax, y: *ay },
            to: Point { x: *bx, y: *by },
        }),
        _ => None,
    }
}

// Whether no number follows, or one that may be a chord's angle.
fn is_chord_given(numbers: &[Number]) -> bool
    ensures { result ≡ curves.is_chord_given numbers.now }
{
    match numbers {
        [] => true,
        [chord, ..] => is_chord(thousandths(*chord)),
    }
}

/// Whether the numbers of a BZ or a BR (Bezier Absolute, Bezier Relative) are those of whole curves, six a
/// curve, and at least one.
pub fn are_curves(numbers: &Numbers<'_>) -> bool
    ensures { result ≡ curves.are_curves numbers.now }
{
    let count = numbers.len();
    count > 0 && count % 6 == 0
}

/// Takes the next curve of a BZ or a BR from its numbers, or `None` if fewer than six are left.
pub fn next_curve(rest: &mut Numbers<'_>) -> Option<CurvePoints>
    ensures some { IfSome result (λ c. curves.curve_points rest.old ≡ c ∷ curves.curve_points rest.new) }
    ensures none { IsNone result → curves.curve_points rest.old ≡ [] }
{
    let (ax, ay) = (rest.next()?, rest.next()?);
    let (bx, by) = (rest.next()?, rest.next()?);
    let (cx, cy) = (rest.next()?, rest.next()?);
    Some(CurvePoints {
        first: Point { x: ax, y: ay },
        second: Point { x: bx, y: by },
        to: Point { x: cx, y: cy },
    })
}
