//! What CP asks for, or `None` if its numbers are wrong.
ghost use Rattle.std.specs.Prelude.{◌≡◌, ◌&&◌, IfSome};
ghost use Rattle.plot_settings.specs.Parameters.{when};
ghost use Rattle.full_settings.specs.LetterParameters.{pair_of};
ghost use Rattle.full_settings.specs.CharacterMoves as moves;
ghost use Rattle.full_settings.specs.CharacterMoves.{IsCharacterMove};
ghost use Rattle.full_settings.specs.declared.character_moves.CharacterMove.TheVariants.{By};

use hpgl_text::Number;
use plot_frame::Pair;

// Numbers of a plot are always nearer to 0 than this, 2^52.
const MOST: u64 = 0x10_0000_0000_0000;

/// What CP (Character Plot) asks for.
#[derive(Clone, Copy, Debug)]
pub enum CharacterMove {
    /// CP without numbers: to the left margin of the next line.
    ToMargin,
    /// CP with two: by so many columns and lines, in millionths and within 2^52 of 0. Lines count upward.
    By(Pair<i64>),
}

/// CP columns, lines (Character Plot): to the margin of the next line if no number is there. `None` if the
/// lines are missing.
pub fn character_move(numbers: &[Number]) -> Option<CharacterMove>
    ensures value { result ≡ moves.character_move numbers.now }
    ensures sound { IfSome result IsCharacterMove }
{
    match numbers {
        [] => Some(CharacterMove::ToMargin),
        [_] => None,
        [columns, lines, ..] => move_by(columns.millionths(), lines.millionths()),
    }
}

fn move_by(columns: i64, lines: i64) -> Option<CharacterMove>
    ensures value { result ≡ when (moves.is_near columns && moves.is_near lines) (By (pair_of columns lines)) }
    ensures sound { IfSome result IsCharacterMove }
{
    if is_near(columns) && is_near(lines) {
        Some(CharacterMove::By(Pair {
            x: columns,
            y: lines,
        }))
    } else {
        None
    }
}

fn is_near(millionths: i64) -> bool
    ensures { result ≡ moves.is_near millionths }
{
    millionths.unsigned_abs() <= MOST
}
