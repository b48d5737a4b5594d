//! Characters that a plot draws by moves.
ghost use Rattle.std.specs.Prelude.{◌≡◌, ◌∷◌, [], ◌^◌, ◌≤◌, nat_abs, nat_le, map, IfOk, true};
ghost use Rattle.directions.specs.Bounds.{IsWithin};
ghost use Rattle.hpgl_plot.specs.Machine as core;
ghost use Rattle.full_settings.specs.UserMoves.{user_moves};
ghost use Rattle.full_plot.specs.Items.{character_steps};
ghost use Rattle.full_plot.specs.Machine.{seen, run, Runs, UserMoveBy};
ghost use Rattle.full_plot.specs.UserCharacters as characters;

use crate::bold::bold_line;
use crate::ink::moved_by;
use crate::plotter::FullPlotter;
use exact::Spot;
use full_settings::{UserMove, is_of_pen, lowers, user_move};
use hpgl_plot::{Plotter, Stop};
use hpgl_text::Numbers;

// How far a point of a character may be from the first one, in millionths: 2^53.
const FARTHEST: u128 = 9_007_199_254_740_992;

impl FullPlotter {
    /// UC: a character by the moves of its own pen. Then the pen is on as after a label of one character.
    pub fn draw_character(&mut self, numbers: &Numbers<'_>) -> Result<(), Stop>
        ensures { Runs (run (seen self.old) (character_steps numbers.now)) (seen self.new) result }
    {
        if numbers.len() == 0 {
            return Ok(());
        }
        self.draw_user_moves(numbers)?;
        self.leave_character()
    }

    // Its moves.
    fn draw_user_moves(&mut self, numbers: &Numbers<'_>) -> Result<(), Stop>
        ensures { Runs (run (seen self.old) (map UserMoveBy (user_moves numbers.now))) (seen self.new) result }
    {
        let mut is_down = false;
        let mut at = Spot { x: 0, y: 0 };
        let mut rest = numbers.iter();
        'moves: while let Some(x) = rest.next() {
            if is_of_pen(x) {
                is_down = lowers(x);
            } else {
                let Some(y) = rest.next() else {
                    return Ok(());
                };
                let step = user_move(is_down, at, x, y);
                self.draw_user_move(step)?;
                at = step.to;
            }
        }
        Ok(())
    }

    // A move, drawn if its pen is down, whether the plotter's is or not. The plotter's pen stays where it is.
    fn draw_user_move(&mut self, step: UserMove) -> Result<(), Stop>
        requires { IsWithin (2 ^ 53) step.from }
        ensures runs { Runs (characters.user_moved (seen self.old) step) (seen self.new) result }
        ensures near { IfOk result (λ _. IsWithin (2 ^ 53) step.to) }
    {
        if !is_near(step.to) {
            return Err(Stop::OffRange);
        }
        let lettering = self.lettering();
        let start = self.plotter.state.place;
        let from = moved_by(start, lettering.user_point(step.from));
        let to = moved_by(start, lettering.user_point(step.to));
        let is_bold = self.characters.font().is_bold;
        draw_line(&mut self.plotter, from, to, step.is_drawn, is_bold)
    }

    // The pen is on by a letter.
    fn leave_character(&mut self) -> Result<(), Stop>
        ensures { Runs (characters.user_ended (seen self.old)) (seen self.new) result }
    {
        let end = self.lettering().user_end();
        let start = self.plotter.state.place;
        self.plotter.put(moved_by(start, end))
    }
}

// A line of a character, drawn if its own pen is down, and bold if letters are.
fn draw_line(
    plotter: &mut Plotter,
    from: Spot,
    to: Spot,
    is_drawn: bool,
    is_bold: bool,
) -> Result<(), Stop>
    ensures { core.Runs (characters.character_line is_bold is_drawn (core.seen plotter.old) (from ∷ (to ∷ [])))
        (core.seen plotter.new) result }
{
    if is_drawn && is_bold {
        bold_line(plotter, from, to)
    } else {
        plotter.travel_to(from, to, is_drawn)
    }
}

// Whether a point is within 2^53 millionths of the first one.
fn is_near(point: Spot) -> bool
    ensures value { result ≡ characters.is_near point }
    ensures within { result ≡ true → IsWithin (2 ^ 53) point }
{
    is_short(point.x) && is_short(point.y)
}

fn is_short(length: i128) -> bool
    ensures value { result ≡ nat_le (nat_abs length) (2 ^ 53) }
    ensures within { result ≡ true → nat_abs length ≤ 2 ^ 53 }
{
    length.unsigned_abs() <= FARTHEST
}
