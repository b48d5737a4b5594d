//! Decimal numbers in the content of a page.
ghost use Rattle.std.specs.Prelude.{◌≡◌, ◌+◌, ◌*◌, ◌^◌, ◌<◌, ◌≤◌, [], if◌then◌else◌, nat_abs, codes};
ghost use Rattle.pdf.specs.Contained.{Fills, IsOpen};
ghost use Rattle.pdf.specs.Numbers.{nearest, part, rounded, signed_thousandths, thousandths, two_digits};

use crate::content::PageContent;
use devices::Sink;
use pieces::{Fraction, Text, hex_digit};

// Puts some thousandths as a decimal number.
fn put_thousandths<K: Sink>(document: &mut Text<'_, K>, content: &mut PageContent<'_>, number: u64)
    requires open { IsOpen K.state document.old content.old }
    ensures fills { Fills K.state document.old document.new content.old content.new (thousandths number) }
{
    content.put_number(document, number / 1000);
    content.put(document, Fraction::new((number % 1000) as u32).as_bytes());
}

// Puts a part of a colour.
pub(crate) fn put_part<K: Sink>(document: &mut Text<'_, K>, content: &mut PageContent<'_>, byte: u8)
    requires open { IsOpen K.state document.old content.old }
    ensures fills { Fills K.state document.old document.new content.old content.new (part byte) }
{
    put_thousandths(document, content, (2000 * u64::from(byte) + 255) / 510);
}

// Puts some thousandths as a decimal number, which may be below 0.
pub(crate) fn put_signed_thousandths<K: Sink>(
    document: &mut Text<'_, K>,
    content: &mut PageContent<'_>,
    number: i64,
)
    requires open { IsOpen K.state document.old content.old }
    ensures fills { Fills K.state document.old document.new content.old content.new (signed_thousandths number) }
{
    put_sign(document, content, number < 0);
    put_thousandths(document, content, number.unsigned_abs());
}

// Puts a sign, or not.
fn put_sign<K: Sink>(document: &mut Text<'_, K>, content: &mut PageContent<'_>, is_below: bool)
    requires open { IsOpen K.state document.old content.old }
    ensures fills { Fills K.state document.old document.new content.old content.new (if is_below then codes "-" else []) }
{
    if is_below {
        content.put(document, b"-");
    }
}

// So many times a number of parts, of which `parts` are one, rounded to the nearest whole number, half away from zero.
pub(crate) fn rounded(times: u64, number: i32, parts: u64) -> i64
    requires small { times * nat_abs number ≤ 2 ^ 44 }
    requires some { 1 ≤ parts }
    requires few { parts ≤ 2 ^ 40 }
    ensures { result ≡ rounded times number parts }
{
    let size = nearest(times * u64::from(number.unsigned_abs()), parts) as i64;
    if number < 0 { -size } else { size }
}

// The same without a sign.
fn nearest(number: u64, parts: u64) -> u64
    requires small { number ≤ 2 ^ 44 }
    requires some { 1 ≤ parts }
    requires few { parts ≤ 2 ^ 40 }
    ensures value { result ≡ nearest number parts }
    ensures most { result ≤ 2 * number + parts }
{
    (2 * number + parts) / (2 * parts)
}

// A byte as two hexadecimal digits.
pub(crate) fn two_digits(number: u8) -> [u8; 2]
    ensures { result ≡ two_digits number }
{
    [hex_digit(number / 16), hex_digit(number % 16)]
}
