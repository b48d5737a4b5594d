//! Commands.
ghost use Rattle.std.specs.Prelude.{◌<◌};
ghost use Rattle.escapes.specs.Commands.{value_limit};

/// The greatest integer part of a value; a greater one counts as this.
pub const GREATEST_INTEGER: u32 = 2_147_483_647;

/// The sign that is written before a value.
#[derive(Clone, Copy, PartialEq, Eq, Debug)]
pub enum Sign {
    /// None.
    Unsigned,
    /// `+`
    Plus,
    /// `-`
    Minus,
}

/// A command of an escape.
#[derive(Clone, Copy)]
pub struct Command<'a> {
    /// The byte after the ESC: a group, or `%`. None if the letter is an escape of its own, as in ESC `E`.
    pub group: Option<u8>,
    /// The small letter after the group.
    pub parameter: Option<u8>,
    /// The sign of the value.
    pub sign: Sign,
    /// The value without its sign, in millionths; 0 if none is written.
    pub millionths: u64,
    /// The letter, as a capital.
    pub letter: u8,
    /// The data after the letter, as a part of the text.
    pub input: &'a [u8],
    ghost small: { millionths < value_limit },
}
