//! Letters of lines, one at a time.
ghost use Rattle.std.specs.Prelude.{◌≡◌, ◌≤◌};
ghost use Rattle.pdf.specs.Contained.{Fills, IsOpen};
ghost use Rattle.pdf.specs.TextSteps.{letter_text, piece_end, piece_start, row_text};
ghost use Rattle.pdf.specs.Texts.{byte_of, row_of, written};

use crate::content::PageContent;
use crate::numbers::two_digits;
use devices::Sink;
use pieces::Text;

// A code point as it is written.
fn written(point: u32) -> u32
    ensures value { result ≡ written point }
    ensures small { result ≤ 65535 }
{
    if point < 65_536 { point } else { 65_533 }
}

// The row of a code point.
pub(crate) fn row_of(point: u32) -> u8
    ensures { result ≡ row_of point }
{
    (written(point) / 256) as u8
}

// The byte of a code point in its row.
fn byte_of(point: u32) -> u8
    ensures { result ≡ byte_of point }
{
    (written(point) % 256) as u8
}

// Puts a letter, after one of another row, of the same one, or after none.
pub(crate) fn put_letter<K: Sink>(
    document: &mut Text<'_, K>,
    content: &mut PageContent<'_>,
    before: Option<u8>,
    point: u32,
)
    requires open { IsOpen K.state document.old content.old }
    ensures fills { Fills K.state document.old document.new content.old content.new (letter_text before point) }
{
    put_row(document, content, before, row_of(point));
    content.put(document, &two_digits(byte_of(point)));
}

// Puts what comes before a letter of a row.
fn put_row<K: Sink>(
    document: &mut Text<'_, K>,
    content: &mut PageContent<'_>,
    before: Option<u8>,
    row: u8,
)
    requires open { IsOpen K.state document.old content.old }
    ensures fills { Fills K.state document.old document.new content.old content.new (row_text before row) }
{
    match before {
        Some(other) if other == row => {}
        _ => put_start(document, content, before, row),
    }
}

// Puts the start of a piece of letters.
fn put_start<K: Sink>(
    document: &mut Text<'_, K>,
    content: &mut PageContent<'_>,
    before: Option<u8>,
    row: u8,
)
    requires open { IsOpen K.state document.old content.old }
    ensures fills { Fills K.state document.old document.new content.old content.new (piece_start before row) }
{
    put_end(document, content, before);
    content.put(document, b"/F");
    content.put_number(document, row);
    content.put(document, b" 1 Tf\n<");
}

// Puts the end of a piece of letters, if there is one.
pub(crate) fn put_end<K: Sink>(
    document: &mut Text<'_, K>,
    content: &mut PageContent<'_>,
    before: Option<u8>,
)
    requires open { IsOpen K.state document.old content.old }
    ensures fills { Fills K.state document.old document.new content.old content.new (piece_end before) }
{
    if before.is_none() {
        return;
    }
    content.put(document, b"> Tj\n");
}
