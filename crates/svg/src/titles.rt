//! Titles: the texts of labels.
ghost use Rattle.std.specs.Prelude.{◌≡◌, ◌∷◌};
ghost use Rattle.pieces.specs.Texts.{IsSound, Puts};
ghost use Rattle.svg.specs.Titles.{character, character_text, is_character, lines_text, text_bytes, title_text};

use devices::Sink;
use labels::Line;
use pieces::Text;

/// The end of a line in a text.
const LINE_FEED: u32 = 0x0A;

/// What replaces a code point that XML does not have.
const REPLACEMENT: char = '\u{FFFD}';

// Puts the title of a label.
pub(crate) fn put_title<K: Sink>(text: &mut Text<'_, K>, lines: &[Line])
    requires sound { IsSound K.state text.old }
    ensures puts { Puts K.state text.old text.new (title_text (lines_text lines.now)) }
{
    text.put(b"<title>");
    put_lines(text, lines);
    text.put(b"</title>\n");
}

// Puts the text of lines, with a line feed between two of them.
fn put_lines<K: Sink>(text: &mut Text<'_, K>, lines: &[Line])
    requires sound { IsSound K.state text.old }
    ensures puts { Puts K.state text.old text.new (text_bytes (lines_text lines.now)) }
{
    let [first, others @ ..] = lines else {
        return;
    };
    put_characters(text, &first.text);
    for line in others {
        put_next_line(text, line);
    }
}

// Puts a line after another one.
fn put_next_line<K: Sink>(text: &mut Text<'_, K>, line: &Line)
    requires sound { IsSound K.state text.old }
    ensures puts { Puts K.state text.old text.new (text_bytes (LINE_FEED ∷ line.now.text)) }
{
    put_character(text, character(LINE_FEED));
    put_characters(text, &line.text);
}

// Puts a text of any code points.
fn put_characters<K: Sink>(text: &mut Text<'_, K>, code_points: &[u32])
    requires sound { IsSound K.state text.old }
    ensures puts { Puts K.state text.old text.new (text_bytes code_points.now) }
{
    for code_point in code_points {
        put_character(text, character(*code_point));
    }
}

// Puts a character: three have a reference, and the others are in UTF-8.
fn put_character<K: Sink>(text: &mut Text<'_, K>, character: char)
    requires sound { IsSound K.state text.old }
    ensures puts { Puts K.state text.old text.new (character_text character) }
{
    match character {
        '&' => text.put(b"&amp;"),
        '<' => text.put(b"&lt;"),
        '>' => text.put(b"&gt;"),
        _ => text.put(character.encode_utf8(&mut [0; 4]).as_bytes()),
    }
}

// A code point as a character, which is U+FFFD if XML has no such character.
fn character(code_point: u32) -> char
    ensures { result ≡ character code_point }
{
    match char::from_u32(code_point) {
        Some(character) if is_character(code_point) => character,
        _ => REPLACEMENT,
    }
}

// Whether XML has such a character, other than a tab and a carriage return.
fn is_character(code_point: u32) -> bool
    ensures { result ≡ is_character code_point }
{
    matches!(code_point, LINE_FEED | 0x20..=0xD7FF | 0xE000..=0xFFFD | 0x1_0000..=0x10_FFFF)
}
