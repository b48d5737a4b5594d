//! The commands of a path, each in the shorter of two texts.
ghost use Rattle.std.specs.Prelude.{◌≡◌, ◌+◌, ◌++◌, length};
ghost use Rattle.pieces.specs.Texts.{IsSound, Puts};
ghost use Rattle.svg.specs.Commands.{MoveTo, command_text, line, move, pair_text};
ghost use Rattle.svg.specs.Places.{IsNear};

use crate::places::{Place, offset};
use devices::Sink;
use itoa::Buffer;
use pieces::Text;

// Puts the command that begins a path.
pub(crate) fn put_first<K: Sink>(text: &mut Text<'_, K>, to: Place)
    requires sound { IsSound K.state text.old }
    ensures puts { Puts K.state text.old text.new (command_text (MoveTo to)) }
{
    put_pair(text, b"M", to);
}

// Puts the command that goes from one place to another.
pub(crate) fn put_move<K: Sink>(text: &mut Text<'_, K>, from: Place, to: Place)
    requires sound { IsSound K.state text.old }
    requires from { IsNear from }
    requires to { IsNear to }
    ensures puts { Puts K.state text.old text.new (command_text (move from to)) }
{
    let by = offset(from, to);
    if digits(by) < digits(to) {
        put_pair(text, b"m", by);
    } else {
        put_pair(text, b"M", to);
    }
}

// Puts the command that draws a line from one place to another.
pub(crate) fn put_line<K: Sink>(text: &mut Text<'_, K>, from: Place, to: Place)
    requires sound { IsSound K.state text.old }
    requires from { IsNear from }
    requires to { IsNear to }
    ensures puts { Puts K.state text.old text.new (command_text (line from to)) }
{
    let by = offset(from, to);
    if digits(by) < digits(to) {
        put_pair(text, b"l", by);
    } else {
        put_pair(text, b"L", to);
    }
}

// How many characters the two numbers of a place have, with a space between them.
fn digits(place: Place) -> usize
    ensures { result ≡ length (pair_text place) }
{
    let mut x = Buffer::new();
    let mut y = Buffer::new();
    x.format(place.x).len() + 1 + y.format(place.y).len()
}

// Puts a letter and a place.
fn put_pair<K: Sink>(text: &mut Text<'_, K>, letter: &[u8; 1], place: Place)
    requires sound { IsSound K.state text.old }
    ensures puts { Puts K.state text.old text.new (letter.now ++ pair_text place) }
{
    text.put(letter);
    put_place(text, place);
}

// Puts a place.
pub(crate) fn put_place<K: Sink>(text: &mut Text<'_, K>, place: Place)
    requires sound { IsSound K.state text.old }
    ensures puts { Puts K.state text.old text.new (pair_text place) }
{
    text.put_number(place.x);
    text.put(b" ");
    text.put_number(place.y);
}
