//! What the numbers of PM, FP, AC, RA, RR, EW, WG and CT ask for, or `None` if they are wrong.
ghost use Rattle.std.specs.Prelude.{◌≡◌, ◌<◌, ◌≤◌, ◌^◌, nat_abs, IfSome};
ghost use Rattle.plot_settings.specs.Bounds.{IsCorner};
ghost use Rattle.full_settings.specs.PolygonParameters as polygons;
ghost use Rattle.full_settings.specs.PolygonParameters.{IsWedge};

use crate::points::Point;
use crate::polygon_setting::{Anchor, PolygonStep, Wedge};
use hpgl_text::Number;
use plot_settings::{Corner, is_chord, thousandths, whole_number};

// The angle of a chord if none is named, in thousandths of a degree.
const USUAL_CHORD: i64 = 5_000;

/// PM mode (Polygon Mode): 0, which is meant if none is named, begins polygon mode, 1 closes a polygon, 2 ends
/// the mode. `None` for any other mode.
pub fn polygon_step(numbers: &[Number]) -> Option<PolygonStep>
    ensures { result ≡ polygons.polygon_step numbers.now }
{
    match numbers {
        [] => Some(PolygonStep::Begin),
        [mode, ..] => match whole_number(*mode) {
            0 => Some(PolygonStep::Begin),
            1 => Some(PolygonStep::Close),
            2 => Some(PolygonStep::End),
            _ => None,
        },
    }
}

/// FP rule (Fill Polygon), and CT mode (Chord Tolerance Mode): whether the number is 1; it is 0 if none is
/// there. `None` for any other number.
pub fn choice(numbers: &[Number]) -> Option<bool>
    ensures { result ≡ polygons.choice numbers.now }
{
    match numbers {
        [] => Some(false),
        [number, ..] => match whole_number(*number) {
            0 => Some(false),
            1 => Some(true),
            _ => None,
        },
    }
}

/// AC x, y (Anchor Corner): the point that a line of hatching goes through, or the page's origin if no number
/// is there. `None` if y is missing.
pub fn anchor(numbers: &[Number]) -> Option<Anchor>
    ensures { result ≡ polygons.anchor numbers.now }
{
    match numbers {
        [] => Some(Anchor::PageOrigin),
        [_] => None,
        [x, y, ..] => Some(Anchor::At(Point { x: *x, y: *y })),
    }
}

/// RA and RR x, y (Fill Rectangle): the corner opposite the pen. `None` if a coordinate is missing.
pub fn fill_corner(numbers: &[Number]) -> Option<Corner>
    ensures value { result ≡ polygons.opposite_corner numbers.now }
    ensures sound { IfSome result (λ c. IsCorner c) }
{
    match numbers {
        [] => None,
        [_] => None,
        [x, y, ..] => Some(Corner {
            x: x.millionths(),
            y: y.millionths(),
        }),
    }
}

/// EW and WG radius, start, sweep, chord (Edge Wedge, Fill Wedge): angles are in degrees, rounded to
/// thousandths; a sweep is cut to a whole turn, and a chord has 5 degrees if none is named. `None` if a number
/// before the chord is missing, or the chord is not 0.5 to 180 degrees.
pub fn wedge(numbers: &[Number]) -> Option<Wedge>
    ensures value { result ≡ polygons.wedge numbers.now }
    ensures sound { IfSome result IsWedge }
{
    match numbers {
        [] => None,
        [_] => None,
        [_, _] => None,
        [radius, start, sweep] => {
            wedge_of(
                radius.millionths(),
                angle(*start),
                thousandths(*sweep),
                USUAL_CHORD,
            )
        }
        [radius, start, sweep, chord, ..] => wedge_of(
            radius.millionths(),
            angle(*start),
            thousandths(*sweep),
            thousandths(*chord),
        ),
    }
}

fn wedge_of(radius: i64, start: u32, sweep: i64, chord: i64) -> Option<Wedge>
    requires radius_in { nat_abs radius ≤ 2 ^ 55 }
    requires start_in { start < 360000 }
    ensures value { result ≡ polygons.wedge_of radius start sweep chord }
    ensures sound { IfSome result IsWedge }
{
    if is_chord(chord) {
        Some(Wedge {
            radius,
            start,
            sweep: cut_sweep(sweep),
            chord: chord as u32,
        })
    } else {
        None
    }
}

// A sweep, cut to a whole turn.
fn cut_sweep(sweep: i64) -> i32
    ensures value { result ≡ polygons.cut_sweep sweep }
    ensures most { nat_abs result ≤ 360000 }
{
    sweep.min(360_000).max(-360_000) as i32
}

/// An angle in thousandths of a degree, 0 to 359,999: whole turns change no direction.
pub fn angle(degrees: Number) -> u32
    ensures value { result ≡ nat_abs (polygons.angle_of degrees) }
    ensures most { result < 360000 }
{
    thousandths(degrees).rem_euclid(360_000) as u32
}
