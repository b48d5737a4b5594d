//! Bytes in base64.
ghost use Rattle.std.specs.Prelude.{◌≡◌, ◌<◌};
ghost use Rattle.pieces.specs.Texts.{IsSound, Puts};
ghost use Rattle.image_data.specs.Base64.{first_letter, four, last_letters, letter, letters, letters_with, second_letter, third_letter, waiting_after, waiting_with};

use crate::waiting::Waiting;
use devices::Sink;
use pieces::Text;

/// What fills up the last four letters.
const FILLER: u8 = b'=';

// Puts bytes after those that wait, and returns which wait then.
pub(crate) fn put_letters<K: Sink>(
    text: &mut Text<'_, K>,
    waiting: Waiting,
    bytes: &[u8],
) -> Waiting
    requires sound { IsSound K.state text.old }
    ensures puts { Puts K.state text.old text.new (letters waiting bytes.now) }
    ensures after { result ≡ waiting_after waiting bytes.now }
{
    let mut result = waiting;
    for byte in bytes {
        put_letters_with(text, result, *byte);
        result = waiting_with(result, *byte);
    }
    result
}

// Puts the letters that a byte completes.
fn put_letters_with<K: Sink>(text: &mut Text<'_, K>, waiting: Waiting, byte: u8)
    requires sound { IsSound K.state text.old }
    ensures puts { Puts K.state text.old text.new (letters_with waiting byte) }
{
    if let Waiting::Two(first, second) = waiting {
        text.put(&four(first, second, byte));
    }
}

// Which bytes wait after one more.
fn waiting_with(waiting: Waiting, byte: u8) -> Waiting
    ensures { result ≡ waiting_with waiting byte }
{
    match waiting {
        Waiting::Empty => Waiting::One(byte),
        Waiting::One(first) => Waiting::Two(first, byte),
        Waiting::Two(..) => Waiting::Empty,
    }
}

// Puts the letters of the bytes that wait at the end.
pub(crate) fn put_last<K: Sink>(text: &mut Text<'_, K>, waiting: Waiting)
    requires sound { IsSound K.state text.old }
    ensures puts { Puts K.state text.old text.new (last_letters waiting) }
{
    match waiting {
        Waiting::Empty => {}
        Waiting::One(a) => text.put(&[first_letter(a), second_letter(a, 0), FILLER, FILLER]),
        Waiting::Two(a, b) => text.put(&[
            first_letter(a),
            second_letter(a, b),
            third_letter(b, 0),
            FILLER,
        ]),
    }
}

// The letters of three bytes.
fn four(a: u8, b: u8, c: u8) -> [u8; 4]
    ensures { result ≡ four a b c }
{
    [
        first_letter(a),
        second_letter(a, b),
        third_letter(b, c),
        letter(c % 64),
    ]
}

fn first_letter(a: u8) -> u8
    ensures { result ≡ first_letter a }
{
    letter(a / 4)
}

fn second_letter(a: u8, b: u8) -> u8
    ensures { result ≡ second_letter a b }
{
    letter(a % 4 * 16 + b / 16)
}

fn third_letter(b: u8, c: u8) -> u8
    ensures { result ≡ third_letter b c }
{
    letter(b % 16 * 4 + c / 64)
}

// The letter of six bits.
fn letter(bits: u8) -> u8
    requires { bits < 64 }
    ensures { result ≡ letter bits }
{
    match bits {
        0..=25 => b'A' + bits,
        26..=51 => b'a' - 26 + bits,
        52..=61 => bits - 4,
        62 => b'+',
        _ => b'/',
    }
}
