//! Groups: a code and a value, each on a line of its own.
ghost use Rattle.std.specs.Prelude.{◌≡◌, ◌<◌, ◌++◌, ◌*ℤ◌, pos};
ghost use Rattle.pieces.specs.Texts.{IsSound, Puts};
ghost use Rattle.dxf.specs.Groups.{after_decimal, count_group, decimals, fraction, group, in_parts, line_end, next_decimal, number_group, sign_text, signed_group, signed_text, size_group, size_text};

use devices::Sink;
use pieces::Text;

/// How many parts a millimetre has, or a degree.
pub(crate) const PARTS: u128 = 10_000_000;

/// How many parts a grain has, which is 1/640 mm.
pub(crate) const GRAIN: u128 = 15_625;

// Puts a group with a word or a name.
pub(crate) fn put_group<K: Sink>(text: &mut Text<'_, K>, code: u32, value: &[u8])
    requires sound { IsSound K.state text.old }
    ensures puts { Puts K.state text.old text.new (group code value.now) }
{
    text.put_number(code);
    text.put(b"\n");
    text.put(value);
    text.put(b"\n");
}

// Puts a group with a whole number.
pub(crate) fn put_count<K: Sink>(text: &mut Text<'_, K>, code: u32, count: u32)
    requires sound { IsSound K.state text.old }
    ensures puts { Puts K.state text.old text.new (count_group code count) }
{
    text.put_number(code);
    text.put(b"\n");
    text.put_number(count);
    text.put(b"\n");
}

// Puts a group with a number of parts.
pub(crate) fn put_number<K: Sink>(text: &mut Text<'_, K>, code: u32, parts: i128)
    requires sound { IsSound K.state text.old }
    ensures puts { Puts K.state text.old text.new (number_group code parts) }
{
    put_signed(text, code, parts < 0, parts.unsigned_abs());
}

// Puts a group with a number of parts, by its sign and its size.
pub(crate) fn put_signed<K: Sink>(text: &mut Text<'_, K>, code: u32, is_negative: bool, parts: u128)
    requires sound { IsSound K.state text.old }
    ensures puts { Puts K.state text.old text.new (signed_group code is_negative parts) }
{
    text.put_number(code);
    text.put(b"\n");
    put_signed_text(text, is_negative, parts);
    text.put(b"\n");
}

// Puts a group with a number of parts that is not negative.
pub(crate) fn put_size<K: Sink>(text: &mut Text<'_, K>, code: u32, parts: u128)
    requires sound { IsSound K.state text.old }
    ensures puts { Puts K.state text.old text.new (size_group code parts) }
{
    text.put_number(code);
    text.put(b"\n");
    put_size_text(text, parts);
    text.put(b"\n");
}

// Puts a number of parts by its sign and its size.
fn put_signed_text<K: Sink>(text: &mut Text<'_, K>, is_negative: bool, parts: u128)
    requires sound { IsSound K.state text.old }
    ensures puts { Puts K.state text.old text.new (signed_text is_negative parts) }
{
    put_sign(text, is_negative);
    put_size_text(text, parts);
}

// Puts the sign of a number that is negative.
fn put_sign<K: Sink>(text: &mut Text<'_, K>, is_negative: bool)
    requires sound { IsSound K.state text.old }
    ensures puts { Puts K.state text.old text.new (sign_text is_negative) }
{
    if is_negative {
        text.put(b"-");
    }
}

// Puts a number of parts.
fn put_size_text<K: Sink>(text: &mut Text<'_, K>, parts: u128)
    requires sound { IsSound K.state text.old }
    ensures puts { Puts K.state text.old text.new (size_text parts) }
{
    text.put_number(parts / PARTS);
    put_fraction(text, (parts % PARTS) as u32);
}

// Puts what comes after the whole number of millimetres or degrees.
fn put_fraction<K: Sink>(text: &mut Text<'_, K>, parts: u32)
    requires sound { IsSound K.state text.old }
    requires few { parts < 10000000 }
    ensures puts { Puts K.state text.old text.new (fraction parts) }
{
    if parts == 0 {
        return;
    }
    text.put(b".");
    put_decimals(text, parts);
}

// Puts the decimals of some parts, without zeros at the end.
fn put_decimals<K: Sink>(text: &mut Text<'_, K>, parts: u32)
    requires sound { IsSound K.state text.old }
    requires few { parts < 10000000 }
    ensures puts { Puts K.state text.old text.new (decimals 7 parts) }
{
    let mut rest = parts;
    for place in 0..7u32 {
        put_decimal(text, rest);
        rest = after_decimal(rest);
    }
}

// Puts the first decimal of some parts, if there are any.
fn put_decimal<K: Sink>(text: &mut Text<'_, K>, parts: u32)
    requires sound { IsSound K.state text.old }
    requires few { parts < 10000000 }
    ensures puts { Puts K.state text.old text.new (next_decimal parts) }
{
    if parts == 0 {
        return;
    }
    text.put(&[b'0' + (parts / 1_000_000) as u8]);
}

// The parts of which the next decimal is the first one.
fn after_decimal(parts: u32) -> u32
    ensures value { result ≡ after_decimal parts }
    ensures few { result < 10000000 }
{
    parts % 1_000_000 * 10
}

/// A number of grains, in parts.
pub(crate) fn in_parts(grains: i32) -> i128
    ensures { result ≡ in_parts grains }
{
    15_625 * i128::from(grains)
}
