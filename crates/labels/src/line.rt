//! Lines of letters.
ghost use Rattle.std.specs.Prelude.{◌≡◌, ◌++◌, [], IfOk};
ghost use Rattle.labels.specs.Labels.{IsNear, line_at, with_letter};

use crate::place::Place;
use std::alloc::{AllocError, Global};
use std::marker::Model;

/// Letters that follow one another on one line of a label.
#[derive(Drop)]
pub struct Line {
    /// Their code points.
    pub text: Vec<u32>,
    /// Where the first letter begins: the corner of the letter from which the text runs on.
    pub start: Place,
    /// Where a letter after the last one would begin.
    pub end: Place,
    /// The corner above the start of the first letter.
    pub top: Place,
}

impl Model for Line {
    ghost use Rattle.labels.specs.Labels.{IsNear, LineShape};

    ghost Value = { LineShape };

    ghost view = { λ s. record { text = s.text.items; start = s.start; end = s.end; top = s.top } };

    ghost invariant = { λ s. IsNear s.start × IsNear s.end × IsNear s.top };
}

impl Line {
    /// A line without letters yet, from a place on, under another one.
    pub fn new(alloc: Global, start: Place, top: Place) -> Line
        requires start { IsNear start }
        requires top { IsNear top }
        ensures { result ≡ line_at start top }
    {
        Line {
            text: Vec::new(alloc),
            start,
            end: start,
            top,
        }
    }

    /// Adds a letter, after which the next one would begin at `end`.
    pub fn push(&mut self, code_point: u32, end: Place) -> Result<(), AllocError>
        requires { IsNear end }
        ensures { IfOk result (λ _. self.new ≡ with_letter self.old code_point end) }
    {
        self.text.push(code_point)?;
        self.end = end;
        Ok(())
    }
}
