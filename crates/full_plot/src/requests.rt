//! What an instruction of core asks for, with its lines in the line type.
ghost use Rattle.std.specs.Prelude.{◌≡◌, IfOk};
ghost use Rattle.plot_settings.specs.Meanings.{meaning, moves, lowered_then};
ghost use Rattle.plot_settings.specs.Requests.{request_meaning, move_steps, IsRequest};
ghost use Rattle.full_notes.specs.Notes.{bad_if};
ghost use Rattle.full_plot.specs.Items.{as_core};
ghost use Rattle.full_plot.specs.Machine.{seen, run, Runs};

use crate::plotter::FullPlotter;
use full_notes::noted_asked;
use hpgl_plot::{NoteKind, Stop};
use hpgl_text::{Instruction, Moves, Numbers};
use plot_settings::{Request, request_of};

impl FullPlotter {
    /// Carries out an instruction of core with its numbers, with its lines in the line type, and answers
    /// what is noted on it.
    pub fn obey(
        &mut self,
        instruction: Instruction,
        numbers: &Numbers<'_>,
    ) -> Result<Option<NoteKind>, Stop>
        ensures runs { Runs (run (seen self.old) (as_core (meaning instruction numbers.now).steps)) (seen self.new) result }
        ensures noted { IfOk result (λ noted. noted ≡ bad_if (meaning instruction numbers.now).is_wrong) }
    {
        let request = request_of(instruction, numbers);
        let noted = noted_asked(&request, numbers);
        self.do_request(request, numbers)?;
        Ok(noted)
    }

    // Does what an instruction with these numbers asks for.
    fn do_request(&mut self, request: Request, numbers: &Numbers<'_>) -> Result<(), Stop>
        requires { IsRequest request }
        ensures { Runs (run (seen self.old) (as_core (request_meaning request numbers.now).steps))
            (seen self.new) result }
    {
        match request {
            Request::Wrong => Ok(()),
            Request::Set(setting) => {
                self.set(setting);
                Ok(())
            }
            Request::Move(moves) => self.move_by(moves, numbers),
            Request::Edge(is_relative, corner) => {
                self.edge(is_relative, corner)?;
                Ok(())
            }
            Request::Circle(circle) => {
                self.circle(circle)?;
                Ok(())
            }
            Request::Arc(is_relative, arc) => {
                self.arc(is_relative, arc)?;
                Ok(())
            }
        }
    }

    /// PU, PD, PA or PR: a move to each pair of its numbers.
    pub fn move_by(&mut self, moves: Moves, numbers: &Numbers<'_>) -> Result<(), Stop>
        ensures { Runs (run (seen self.old) (as_core (move_steps moves numbers.now))) (seen self.new) result }
    {
        match moves {
            Moves::Up => {
                self.set_down(false);
                self.follow(numbers)
            }
            Moves::Down => self.lower(numbers),
            Moves::Absolute => {
                self.set_relative(false);
                self.follow(numbers)
            }
            Moves::Relative => {
                self.set_relative(true);
                self.follow(numbers)
            }
        }
    }

    // PD: a dot if it makes no move, and its moves.
    fn lower(&mut self, numbers: &Numbers<'_>) -> Result<(), Stop>
        ensures { Runs (run (seen self.old) (as_core (lowered_then (moves numbers.now)))) (seen self.new) result }
    {
        if numbers.len() < 2 {
            self.touch()?;
        }
        self.set_down(true);
        self.follow(numbers)
    }

    // A move to each pair.
    fn follow(&mut self, numbers: &Numbers<'_>) -> Result<(), Stop>
        ensures { Runs (run (seen self.old) (as_core (moves numbers.now))) (seen self.new) result }
    {
        let mut rest = numbers.iter();
        'pairs: while let Some(x) = rest.next() {
            let Some(y) = rest.next() else {
                return Ok(());
            };
            self.move_to(x, y)?;
        }
        Ok(())
    }
}
