//! What a message is about.
ghost use Rattle.std.specs.Prelude.{Some};
ghost use Rattle.delivery.specs.Messages.{about_text};

use std::fmt::{Display, Formatter, Result, Write};

/// What a message is about: one plot of several, which it names, and one sheet of several, or the run.
#[derive(Clone, Copy)]
pub struct About<'a> {
    pub plot: Option<&'a str>,
    pub sheet: Option<u32>,
}

impl About<'_> {
    /// The run.
    pub const RUN: About<'static> = About {
        plot: None,
        sheet: None,
    };
}

impl Display for About<'_> {
    ghost output = { λ about. Some (about_text about) };

    fn fmt<W: Write>(&self, f: &mut Formatter<W>) -> Result {
        match (self.plot, self.sheet) {
            (None, None) => Ok(()),
            (None, Some(sheet)) => write!(f, "sheet {sheet}: "),
            (Some(plot), None) => write!(f, "{plot}: "),
            (Some(plot), Some(sheet)) => write!(f, "{plot}: sheet {sheet}: "),
        }
    }
}
