//! How far a picture is.
ghost use Rattle.std.specs.Prelude.{◌≡◌, ◌++◌, ◌<◌, ◌≤◌, Some, ⊤, codes, decimal};
ghost use Rattle.delivery.specs.Messages.{about_text};

use conversion::Watcher;
use delivery::About;
use std::fmt::{Display, Formatter, Result, Write};

/// Where progress is shown, in one line that is written again and again.
pub trait Terminal {
    /// Whether there is anybody to see it.
    fn is_shown(&self) -> bool;

    /// Writes this over the line.
    fn show<M: Display>(&self, message: &M);

    /// Ends the line, so that the next message has one of its own.
    fn end(&self);
}

/// Says how many rows of a picture are written, at each hundredth of the rows. It says nothing unless that is asked for and
/// there is somebody to see it, and nothing of a picture that is painted in one band.
#[derive(Drop)]
pub(crate) struct Progress<'a, T: Terminal> {
    terminal: &'a T,
    about: About<'a>,
    is_shown: bool,
    // The hundredths of the picture that the line shows, or 0 if there is no line yet.
    hundredths: u64,
}

impl<'a, T: Terminal> Progress<'a, T> {
    pub(crate) fn new(terminal: &'a T, about: About<'a>, is_asked: bool) -> Self {
        Progress {
            terminal,
            about,
            is_shown: is_asked && terminal.is_shown(),
            hundredths: 0,
        }
    }

    // Ends the line, if there is one.
    pub(crate) fn end(&self) {
        if self.hundredths > 0 {
            self.terminal.end();
        }
    }
}

impl<T: Terminal> Watcher for Progress<'_, T> {
    ghost hears = { λ _ _ _ _. ⊤ };

    fn rows_written(&mut self, done: u32, rows: u32) {
        let hundredths = u64::from(done) * 100 / u64::from(rows);
        let is_one_band = done == rows && self.hundredths == 0;
        if !self.is_shown || hundredths == self.hundredths || is_one_band {
            return;
        }
        self.hundredths = hundredths;
        let (about, left) = (self.about, rows - done);
        self.terminal.show(&RowsLeft {
            about,
            done,
            rows,
            left,
        });
    }
}

// How many rows are written, and left.
#[derive(Clone, Copy)]
struct RowsLeft<'a> {
    about: About<'a>,
    done: u32,
    rows: u32,
    left: u32,
}

impl Display for RowsLeft<'_> {
    ghost output = { λ it. Some (about_text it.about ++ decimal it.done ++ codes " of " ++ decimal it.rows ++ codes " rows, "
        ++ decimal it.left ++ codes " left") };

    fn fmt<W: Write>(&self, f: &mut Formatter<W>) -> Result {
        let (about, done, rows, left) = (self.about, self.done, self.rows, self.left);
        write!(f, "{about}{done} of {rows} rows, {left} left")
    }
}
