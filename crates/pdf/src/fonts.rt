//! Fonts: an encoding, and a font of 256 code points for each row, whose letters are those of Courier.
ghost use Rattle.std.specs.Prelude.{◌≡◌, ◌+◌, ◌*◌, ◌≤◌, ◌++◌, [], ◌∷◌, length, codes, decimal};
ghost use Rattle.pieces.specs.Texts.{IsSound, Puts};
ghost use Rattle.pdf.specs.Documents.{encoding_text, font_count, font_object, font_objects, fonts_text, names_text};
ghost use Rattle.pdf.specs.Documents.{resources_text, row_objects, unicode_object};
ghost use Rattle.pdf.specs.Objects.{reference_text};
ghost use Rattle.pdf.specs.Writings.{Adds};

use crate::numbers::two_digits;
use crate::objects::{begin_object, end_object, put_reference};
use crate::rows::ROWS;
use devices::Sink;
use pieces::Text;

/// How many names an encoding has.
const NAMES: usize = 256;

// How many objects the fonts of so many rows are.
pub(crate) fn font_count(rows: &[u8]) -> u32
    requires { length rows.now ≤ ROWS }
    ensures value { result ≡ font_count rows.now }
    ensures most { result ≤ 1 + 2 * ROWS }
{
    if rows.is_empty() {
        0
    } else {
        1 + 2 * rows.len() as u32
    }
}

// Puts references to the fonts of rows, if there is one, after the encoding of this number.
pub(crate) fn put_resources<K: Sink>(text: &mut Text<'_, K>, encoding: u32, rows: &[u8])
    requires sound { IsSound K.state text.old }
    requires few { length rows.now ≤ ROWS }
    requires number { encoding ≤ 1000 }
    ensures puts { Puts K.state text.old text.new (resources_text encoding rows.now) }
{
    if rows.is_empty() {
        return;
    }
    text.put(b"/Font<<");
    put_names(text, encoding + 1, rows);
    text.put(b">>");
}

// Puts references to the fonts of rows, from this number on.
fn put_names<K: Sink>(text: &mut Text<'_, K>, number: u32, rows: &[u8])
    requires sound { IsSound K.state text.old }
    requires few { length rows.now ≤ ROWS }
    requires number { number ≤ 1001 }
    ensures puts { Puts K.state text.old text.new (fonts_text number rows.now) }
{
    for index in 0..rows.len() {
        put_name(text, rows[index], number + 2 * index as u32);
    }
}

// Puts a reference to the font of a row after its name.
fn put_name<K: Sink>(text: &mut Text<'_, K>, row: u8, number: u32)
    requires sound { IsSound K.state text.old }
    ensures puts { Puts K.state text.old text.new (codes "/F" ++ decimal row ++ reference_text number) }
{
    text.put(b"/F");
    text.put_number(row);
    put_reference(text, number);
}

// Puts the encoding and the fonts of rows, if there is one, after `before` objects.
pub(crate) fn put_fonts<K: Sink>(
    text: &mut Text<'_, K>,
    offsets: &mut [u64],
    before: u32,
    rows: &[u8],
)
    requires sound { IsSound K.state text.old }
    requires few { length rows.now ≤ ROWS }
    requires number { before ≤ 1000 }
    requires room { before + font_count rows.now ≤ length offsets.old }
    ensures adds { Adds K.state text.old text.new offsets.old offsets.new before (font_objects before rows.now) }
{
    if rows.is_empty() {
        return;
    }
    put_encoding(text, offsets, before);
    put_rows(text, offsets, before + 1, rows);
}

// Puts the encoding after `before` objects.
fn put_encoding<K: Sink>(text: &mut Text<'_, K>, offsets: &mut [u64], before: u32)
    requires sound { IsSound K.state text.old }
    requires number { before ≤ 1000 }
    requires room { before + 1 ≤ length offsets.old }
    ensures adds { Adds K.state text.old text.new offsets.old offsets.new before (encoding_text ∷ []) }
{
    begin_object(text, offsets, before);
    text.put(b"<</Differences[0");
    put_glyphs(text);
    text.put(b"]>>");
    end_object(text);
}

// Puts the names of glyphs.
fn put_glyphs<K: Sink>(text: &mut Text<'_, K>)
    requires sound { IsSound K.state text.old }
    ensures puts { Puts K.state text.old text.new (names_text 256) }
{
    for index in 0..NAMES {
        text.put(b"/a");
    }
}

// Puts the fonts of rows after their encoding, which is the object of this number, and the last one so far.
fn put_rows<K: Sink>(text: &mut Text<'_, K>, offsets: &mut [u64], encoding: u32, rows: &[u8])
    requires sound { IsSound K.state text.old }
    requires few { length rows.now ≤ ROWS }
    requires number { encoding ≤ 1001 }
    requires room { encoding + 2 * length rows.now ≤ length offsets.old }
    ensures adds { Adds K.state text.old text.new offsets.old offsets.new encoding
        (row_objects encoding encoding rows.now) }
{
    for index in 0..rows.len() {
        let before = encoding + 2 * index as u32;
        put_row(text, offsets, encoding, before, rows[index]);
    }
}

// Puts the font of a row after `before` objects.
fn put_row<K: Sink>(
    text: &mut Text<'_, K>,
    offsets: &mut [u64],
    encoding: u32,
    before: u32,
    row: u8,
)
    requires sound { IsSound K.state text.old }
    requires number { before ≤ 2000 }
    requires room { before + 2 ≤ length offsets.old }
    ensures adds { Adds K.state text.old text.new offsets.old offsets.new before
        (font_object encoding (before + 2) ∷ unicode_object row ∷ []) }
{
    put_font(text, offsets, encoding, before);
    put_unicode(text, offsets, before + 1, row);
}

// Puts a font after `before` objects, whose Unicode is the object after it.
fn put_font<K: Sink>(text: &mut Text<'_, K>, offsets: &mut [u64], encoding: u32, before: u32)
    requires sound { IsSound K.state text.old }
    requires number { before ≤ 2000 }
    requires room { before + 1 ≤ length offsets.old }
    ensures adds { Adds K.state text.old text.new offsets.old offsets.new before
        (font_object encoding (before + 2) ∷ []) }
{
    begin_object(text, offsets, before);
    text.put(b"<</Type/Font/Subtype/Type1/BaseFont/Courier/Encoding");
    put_reference(text, encoding);
    text.put(b"/ToUnicode");
    put_reference(text, before + 2);
    text.put(b">>");
    end_object(text);
}

// Puts the Unicode of a row's bytes after `before` objects.
fn put_unicode<K: Sink>(text: &mut Text<'_, K>, offsets: &mut [u64], before: u32, row: u8)
    requires sound { IsSound K.state text.old }
    requires number { before ≤ 2001 }
    requires room { before + 1 ≤ length offsets.old }
    ensures adds { Adds K.state text.old text.new offsets.old offsets.new before (unicode_object row ∷ []) }
{
    begin_object(text, offsets, before);
    put_map(text, row);
    end_object(text);
}

// Puts the body of that object.
fn put_map<K: Sink>(text: &mut Text<'_, K>, row: u8)
    requires sound { IsSound K.state text.old }
    ensures puts { Puts K.state text.old text.new (unicode_object row) }
{
    let digits = two_digits(row);
    text.put(
        b"<</Length 313>>stream\n/CIDInit /ProcSet findresource begin\n12 dict begin\nbegincmap\n",
    );
    text.put(b"/CIDSystemInfo<</Registry(Adobe)/Ordering(UCS)/Supplement 0>>def\n/CMapName/Row");
    text.put(&digits);
    text.put(
        b" def\n/CMapType 2 def\n1 begincodespacerange\n<00><ff>\nendcodespacerange\n1 beginbfrange\n<00><ff><",
    );
    text.put(&digits);
    text.put(
        b"00>\nendbfrange\nendcmap\nCMapName currentdict/CMap defineresource pop\nend\nend\n\nendstream",
    );
}
