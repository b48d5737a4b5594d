//! Pairs of coded numbers that nothing separates.
ghost use Rattle.std.specs.Prelude.{◌<◌, ◌≤◌, Bool, length, IfSome};
ghost use Rattle.hpgl_text.specs.Carried.{IsClosePair};
ghost use Rattle.hpgl_text.specs.Polylines.{piece_at};

use crate::bytes::past;
use crate::polyline::base::Base;
use crate::polyline::coded::first_coded;
use crate::polyline::whole::Whole;

// As many bytes as two numbers can have. In a text that is as long no digit needs a test that it is there.
const LONG: usize = 14;

/// The two numbers that the text begins with, if the second follows the first at once, and how many bytes they
/// take.
#[inline(always)]
pub fn first_pair(text: &[u8], base: Base) -> Option<(Whole, Whole, usize)>
    ensures pair { (closed : Bool)
        → IfSome result (λ read. IsClosePair (piece_at base closed text.now) read.0 read.1 read.2) }
    ensures within { IfSome result (λ read. (0 < read.2) × (read.2 ≤ length text.now)) }
{
    if text.len() < LONG {
        last_pair(text, base)
    } else {
        two_numbers(text, base)
    }
}

// The same, for the end of a text.
#[inline(never)]
fn last_pair(text: &[u8], base: Base) -> Option<(Whole, Whole, usize)>
    ensures pair { (closed : Bool)
        → IfSome result (λ read. IsClosePair (piece_at base closed text.now) read.0 read.1 read.2) }
    ensures within { IfSome result (λ read. (0 < read.2) × (read.2 ≤ length text.now)) }
{
    two_numbers(text, base)
}

// The same, for any text.
#[inline(always)]
fn two_numbers(text: &[u8], base: Base) -> Option<(Whole, Whole, usize)>
    ensures pair { (closed : Bool)
        → IfSome result (λ read. IsClosePair (piece_at base closed text.now) read.0 read.1 read.2) }
    ensures within { IfSome result (λ read. (0 < read.2) × (read.2 ≤ length text.now)) }
{
    let Some((x, first)) = first_coded(text, base) else {
        return None;
    };
    let Some((y, second)) = first_coded(past(text, first), base) else {
        return None;
    };
    Some((x, y, first + second))
}
