//! The table of where objects begin, and the trailer.
ghost use Rattle.std.specs.Prelude.{◌≡◌, ◌%◌, ◌+◌, ◌^◌, ◌<◌, ◌++◌, length, codes, decimal};
ghost use Rattle.pieces.specs.Fractions.{digit};
ghost use Rattle.pieces.specs.Texts.{IsSound, Puts};
ghost use Rattle.pdf.specs.Objects.{entries_text, entry_text, table_text, trailer_text};

use devices::Sink;
use pieces::Text;

/// A line of the table.
const ENTRY: usize = 20;

// Puts the table of objects that begin there.
pub(crate) fn put_table<K: Sink>(text: &mut Text<'_, K>, offsets: &[u64])
    requires sound { IsSound K.state text.old }
    requires few { length offsets.now < 2 ^ 31 }
    ensures puts { Puts K.state text.old text.new (table_text offsets.now) }
{
    put_table_head(text, offsets.len() as u32);
    put_entries(text, offsets);
}

// Puts the head of the table of so many objects.
fn put_table_head<K: Sink>(text: &mut Text<'_, K>, count: u32)
    requires sound { IsSound K.state text.old }
    requires few { count < 2 ^ 31 }
    ensures puts { Puts K.state text.old text.new
        (codes "xref\n0 " ++ decimal (count + 1) ++ codes "\n0000000000 65535 f \n") }
{
    text.put(b"xref\n0 ");
    text.put_number(count + 1);
    text.put(b"\n0000000000 65535 f \n");
}

// Puts the lines of objects that begin there.
fn put_entries<K: Sink>(text: &mut Text<'_, K>, offsets: &[u64])
    requires sound { IsSound K.state text.old }
    ensures puts { Puts K.state text.old text.new (entries_text offsets.now) }
{
    for offset in offsets {
        text.put(&entry(*offset));
    }
}

// The line of an object that begins there.
fn entry(offset: u64) -> [u8; ENTRY]
    ensures { result ≡ entry_text offset }
{
    [
        digit(offset / 1_000_000_000),
        digit(offset / 100_000_000),
        digit(offset / 10_000_000),
        digit(offset / 1_000_000),
        digit(offset / 100_000),
        digit(offset / 10_000),
        digit(offset / 1000),
        digit(offset / 100),
        digit(offset / 10),
        digit(offset),
        b' ',
        b'0',
        b'0',
        b'0',
        b'0',
        b'0',
        b' ',
        b'n',
        b' ',
        b'\n',
    ]
}

// The last digit of a number.
fn digit(number: u64) -> u8
    ensures { result ≡ digit (number % 10) }
{
    b'0' + (number % 10) as u8
}

// Puts the trailer after so many objects, whose table begins there.
pub(crate) fn put_trailer<K: Sink>(text: &mut Text<'_, K>, count: u32, at: u64)
    requires sound { IsSound K.state text.old }
    requires few { count < 2 ^ 31 }
    ensures puts { Puts K.state text.old text.new (trailer_text count at) }
{
    text.put(b"trailer\n<</Size ");
    text.put_number(count + 1);
    text.put(b"/Root 1 0 R/Info 2 0 R>>\nstartxref\n");
    text.put_number(at);
    text.put(b"\n%%EOF\n");
}
