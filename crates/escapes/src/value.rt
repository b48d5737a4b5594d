//! Values of commands.
ghost use Rattle.std.specs.Prelude.{◌≡◌, ◌*◌, ◌^◌, ◌<◌, ◌≤◌, length, drop};
ghost use Rattle.hpgl_text.specs.Numbers.{digits, unsigned, digits_after_point, point_length, decimals_sum};
ghost use Rattle.escapes.specs.Commands.{sign_of, value_limit, capped, millionths_of, after_value};
ghost use Rattle.escapes.specs.declared.command.TheConstants.{GREATEST_INTEGER};

use crate::bytes::{after, byte_at, first_digits};
use crate::command::{GREATEST_INTEGER, Sign};

/// The value that a text begins with, and what follows it.
#[derive(Clone, Copy)]
pub struct Value<'a> {
    pub sign: Sign,
    pub millionths: u64,
    pub rest: &'a [u8],
}

/// The value that a text begins with.
pub fn first_value<'a>(text: &'a [u8]) -> Value<'a>
    ensures sign { result.sign ≡ sign_of text.now }
    ensures millionths { result.millionths ≡ millionths_of text.now }
    ensures rest { result.rest.now ≡ after_value text.now }
    ensures small { result.millionths < value_limit }
    ensures shorter { length result.rest.now ≤ length text.now }
{
    let integer = first_integer(after_sign(text));
    let decimals = first_decimals(integer.rest);
    Value {
        sign: first_sign(text),
        millionths: integer.value * 1_000_000 + decimals.value,
        rest: decimals.rest,
    }
}

/// A number without a sign, and what follows it.
#[derive(Clone, Copy)]
pub struct Digits<'a> {
    pub value: u64,
    pub rest: &'a [u8],
}

fn first_sign(text: &[u8]) -> Sign
    ensures { result ≡ sign_of text.now }
{
    let byte = byte_at(text, 0);
    if byte == b'+' {
        Sign::Plus
    } else if byte == b'-' {
        Sign::Minus
    } else {
        Sign::Unsigned
    }
}

// What follows the sign, if there is one.
fn after_sign(text: &[u8]) -> &[u8]
    ensures { result.now ≡ unsigned text.now }
{
    let byte = byte_at(text, 0);
    if byte == b'+' || byte == b'-' {
        after(text, 1)
    } else {
        after(text, 0)
    }
}

/// The digits that a text begins with, as a number.
pub fn first_integer<'a>(text: &'a [u8]) -> Digits<'a>
    ensures value { result.value ≡ capped (digits text.now) }
    ensures rest { result.rest.now ≡ drop (length (digits text.now)) text.now }
    ensures small { result.value ≤ GREATEST_INTEGER }
{
    let digits = first_digits(text);
    Digits {
        value: integer_of(digits),
        rest: after(text, digits.len()),
    }
}

// The first six digits after a point that a text begins with, in millionths.
#[tactic(auto, using(crate::proofs::Digits::decimals_small))]
fn first_decimals<'a>(text: &'a [u8]) -> Digits<'a>
    ensures value { result.value ≡ decimals_sum 6 (digits_after_point text.now) }
    ensures rest { result.rest.now ≡ drop (length (digits_after_point text.now)) (drop (point_length text.now) text.now) }
    ensures small { result.value < 10 ^ 6 }
{
    if byte_at(text, 0) != b'.' {
        return Digits {
            value: 0,
            rest: after(text, 0),
        };
    }
    let rest = after(text, 1);
    let digits = first_digits(rest);
    Digits {
        value: decimals_of(digits),
        rest: after(rest, digits.len()),
    }
}

// The number that digits write, or the greatest if it is greater.
fn integer_of(digits: &[u8]) -> u64
    ensures value { result ≡ capped digits.now }
    ensures small { result ≤ GREATEST_INTEGER }
{
    let mut value: u64 = 0;
    for digit in digits {
        let longer = value * 10 + u64::from((*digit).saturating_sub(b'0'));
        value = longer.min(u64::from(GREATEST_INTEGER));
    }
    value
}

// The first six digits, in millionths.
fn decimals_of(digits: &[u8]) -> u64
    ensures value { result ≡ decimals_sum 6 digits.now }
    ensures small { result ≤ 23000000 }
{
    let mut millionths: u64 = 0;
    let mut weight: u64 = 100_000;
    for digit in digits {
        millionths += u64::from((*digit).saturating_sub(b'0')) * weight;
        weight /= 10;
    }
    millionths
}
