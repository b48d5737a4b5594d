//! The moves of a character that a plot draws by UC.
ghost use Rattle.std.specs.Prelude.{◌≡◌, ◌≤◌, ◌^◌, ◌+ℤ◌, nat_abs};
ghost use Rattle.directions.specs.Bounds.{IsWithin};
ghost use Rattle.full_settings.specs.UserMoves as moves;

use exact::Spot;
use hpgl_text::{Number, Numbers};

// The number from which on the pen goes down, in millionths.
const DOWN: i64 = 99_000_000;

/// A move of a character's own pen (HP-GL/2: UC). Its ends are in millionths of fourths of a letter's width and of eighths
/// of its height.
#[derive(Clone, Copy, Debug)]
pub struct UserMove {
    /// Whether the pen is down.
    pub is_drawn: bool,
    pub from: Spot,
    pub to: Spot,
}

/// Whether a number puts the pen down: 99 or more.
pub fn lowers(number: Number) -> bool
    ensures { result ≡ moves.lowers number }
{
    number.millionths() >= DOWN
}

/// Whether a number puts the pen down or up, and is no part of a move: 99 or more, or -99 or less.
pub fn is_of_pen(number: Number) -> bool
    ensures { result ≡ moves.is_of_pen number }
{
    lowers(number) || number.millionths() <= -DOWN
}

/// A move by so many fourths of a width to the right and eighths of a height up, from a point within 2^53 of 0.
pub fn user_move(is_down: bool, at: Spot, x: Number, y: Number) -> UserMove
    requires { IsWithin (2 ^ 53) at }
    ensures { result ≡ moves.user_move is_down at x y }
{
    UserMove {
        is_drawn: is_down,
        from: at,
        to: Spot {
            x: moved(at.x, x),
            y: moved(at.y, y),
        },
    }
}

// A coordinate, moved by a number.
fn moved(at: i128, by: Number) -> i128
    requires { nat_abs at ≤ 2 ^ 53 }
    ensures { result ≡ at +ℤ by }
{
    at + i128::from(by.millionths())
}

/// Whether no number of a UC is left alone.
pub fn are_user_moves(numbers: &Numbers<'_>) -> bool
    ensures { result ≡ moves.are_user_moves numbers.now }
{
    let mut rest = numbers.iter();
    'numbers: while let Some(x) = rest.next() {
        if !is_of_pen(x) {
            let Some(_) = rest.next() else {
                return false;
            };
        }
    }
    true
}
