//! What holds of escapes. The functions do nothing; their contracts are laws.
ghost use Rattle.escapes.specs.Laws.{EscapesTakeBytes, CommandsAreApart, CommandsShareTheirGroup};
ghost use Rattle.escapes.specs.Laws.{CommandsAreInRange, DataAreAsLongAsSaid};

/// An escape takes the begin of a text, of at least a byte.
pub fn escapes_take_bytes()
    ensures { EscapesTakeBytes }
{}

/// An escape has a command. No byte is in two commands or their data.
pub fn commands_are_apart()
    ensures { CommandsAreApart }
{}

/// The commands of an escape are of one group. Without a group, and after ESC `%`, there is one.
pub fn commands_share_their_group()
    ensures { CommandsShareTheirGroup }
{}

/// Values are below 2,147,483,648, and the letter of a command with a group is a capital.
pub fn commands_are_in_range()
    ensures { CommandsAreInRange }
{}

/// Data are as long as the value before the letter says, or shorter at the text's end.
pub fn data_are_as_long_as_said()
    ensures { DataAreAsLongAsSaid }
{}
