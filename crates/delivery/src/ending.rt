//! How the writing of an output ends.
ghost use Rattle.delivery.specs.Deeds.{IsFailure, Item, Says};
ghost use Rattle.std.specs.Prelude.{◌≡◌};
ghost use Rattle.delivery.specs.declared.ending.Ending.{Ending};

use crate::about::About;
use crate::voice::Voice;
use std::io::Write;

/// How the writing of an output ended.
#[derive(Clone, Copy, Debug, PartialEq, Eq)]
pub enum Ending {
    /// All was written.
    Whole,
    /// Not all was written, with this exit status; what was is of use to a later run.
    Kept(u8),
    /// Not all was written, with this exit status, and what was is of no use.
    Lost(u8),
}

/// What is to be written.
pub trait Content: Drop {
    /// What writing it answers.
    type Answer: Answer + Drop;

    /// What it is.
    ghost item: { Self → Item };

    /// That it was written, and how that ended.
    ghost wrote: { Self → Ending → Type 0 };

    /// Writes it, and gives the writer back.
    fn write<W: Write + Drop>(self, to: W) -> (W, Self::Answer)
        ensures { wrote self (Self.Answer.ends result.1) };
}

/// What writing answered, and what a user should know of it.
pub trait Answer {
    /// How the writing ended.
    ghost ends: { Self → Ending };

    /// How the writing ended.
    fn ending(&self) -> Ending
        ensures { result ≡ ends self.now };

    /// The answer if the system then fails to store what was written.
    fn unstored(&self) -> Self
        ensures { IsFailure (ends result) };

    /// Says why the writing failed, or what a user should know of what was written; messages are about this.
    fn tell<V: Voice>(&self, voice: &mut V, about: About<'_>)
        ensures { Says V.does voice.old (ends self.now) voice.new };
}
