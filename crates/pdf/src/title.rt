//! The title of a document.
ghost use Rattle.std.specs.Prelude.{◌≡◌, ◌<◌, ◌++◌, codes};
ghost use Rattle.std.specs.Str.{chars};
ghost use Rattle.pieces.specs.Texts.{IsSound, Puts};
ghost use Rattle.pdf.specs.Documents.{title_text};
ghost use Rattle.pdf.specs.Numbers.{character_text, four_digits, utf_16_text};

use devices::Sink;
use pieces::{Text, hex_digit};

// Puts a title, unless it is empty.
pub(crate) fn put_title<K: Sink>(text: &mut Text<'_, K>, title: &str)
    requires sound { IsSound K.state text.old }
    ensures puts { Puts K.state text.old text.new (title_text title.now) }
{
    if title.is_empty() {
        return;
    }
    put_some(text, title);
}

// Puts a title as it is.
fn put_some<K: Sink>(text: &mut Text<'_, K>, title: &str)
    requires sound { IsSound K.state text.old }
    ensures puts { Puts K.state text.old text.new
        (codes "/Title<FEFF" ++ utf_16_text (chars title.now) ++ codes ">") }
{
    text.put(b"/Title<FEFF");
    put_characters(text, title);
    text.put(b">");
}

// Puts the characters of a title.
fn put_characters<K: Sink>(text: &mut Text<'_, K>, title: &str)
    requires sound { IsSound K.state text.old }
    ensures puts { Puts K.state text.old text.new (utf_16_text (chars title.now)) }
{
    for character in title.chars() {
        put_character(text, character as u32);
    }
}

// Puts a character.
fn put_character<K: Sink>(text: &mut Text<'_, K>, character: u32)
    requires sound { IsSound K.state text.old }
    requires few { character < 1114112 }
    ensures puts { Puts K.state text.old text.new (character_text character) }
{
    if character < 65_536 {
        text.put(&four_digits(character));
    } else {
        let rest = character - 65_536;
        text.put(&four_digits(55_296 + rest / 1024));
        text.put(&four_digits(56_320 + rest % 1024));
    }
}

// A number of 16 bits as four hexadecimal digits.
fn four_digits(number: u32) -> [u8; 4]
    requires { number < 65536 }
    ensures { result ≡ four_digits number }
{
    [
        hex_digit((number / 4096) as u8),
        hex_digit((number / 256 % 16) as u8),
        hex_digit((number / 16 % 16) as u8),
        hex_digit((number % 16) as u8),
    ]
}
