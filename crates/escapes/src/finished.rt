//! Commands from their letters on.
ghost use Rattle.std.specs.Prelude.{◌≡◌, ◌<◌, length};
ghost use Rattle.escapes.specs.Commands.{value_limit, capital, is_byte, takes_data, count_of, data_count, finished};
ghost use Rattle.escapes.specs.Views.{said};

use crate::bytes::{after, before, is_small_letter};
use crate::command::{Command, Sign};

/// A command, and the text after its data.
#[derive(Clone, Copy)]
pub struct Finished<'a> {
    pub command: Command<'a>,
    pub rest: &'a [u8],
}

/// The command with this value, by the text from its letter on.
pub fn finish<'a>(
    group: Option<u8>,
    parameter: Option<u8>,
    sign: Sign,
    millionths: u64,
    text: &'a [u8],
) -> Finished<'a>
    requires some { 0 < length text.now }
    requires small { millionths < value_limit }
    ensures finished { (said result.command, result.rest.now) ≡ finished group parameter sign millionths text.now }
    ensures shorter { length result.rest.now < length text.now }
{
    let letter = capital(text[0]);
    let rest = &text[1..];
    let count = data_count(group, parameter, sign, millionths, letter);
    Finished {
        command: Command {
            group,
            parameter,
            sign,
            millionths,
            letter,
            input: before(rest, count),
        },
        rest: after(rest, count),
    }
}

fn capital(letter: u8) -> u8
    ensures { result ≡ capital letter }
{
    if is_small_letter(letter) {
        letter - 32
    } else {
        letter
    }
}

// How many bytes of data follow.
fn data_count(
    group: Option<u8>,
    parameter: Option<u8>,
    sign: Sign,
    millionths: u64,
    letter: u8,
) -> usize
    requires { millionths < value_limit }
    ensures { result ≡ data_count group parameter sign millionths letter }
{
    if takes_data(group, parameter, letter) {
        count_of(sign, millionths)
    } else {
        0
    }
}

// Whether data follow.
fn takes_data(group: Option<u8>, parameter: Option<u8>, letter: u8) -> bool
    ensures { result ≡ takes_data group parameter letter }
{
    letter == b'W'
        || (is_byte(group, b'*') && is_byte(parameter, b'b') && letter == b'V')
        || (is_byte(group, b'&') && is_byte(parameter, b'p') && letter == b'X')
}

fn is_byte(found: Option<u8>, byte: u8) -> bool
    ensures { result ≡ is_byte found byte }
{
    match found {
        None => false,
        Some(it) => it == byte,
    }
}

// How many bytes of data a value asks for.
fn count_of(sign: Sign, millionths: u64) -> usize
    requires { millionths < value_limit }
    ensures { result ≡ count_of sign millionths }
{
    match sign {
        Sign::Minus => 0,
        Sign::Unsigned | Sign::Plus => ((millionths + 500_000) / 1_000_000) as usize,
    }
}
