//! Digits of numbers.
ghost use Rattle.std.specs.Prelude.{◌≡◌, ◌+◌, ◌<◌, ◌≤◌, ◌==◌, if◌then◌else◌, false};
ghost use Rattle.std.specs.Fmt.{digit_glyph};
ghost use Rattle.pieces.specs.Fractions.{decimals, digit};

/// A number below 16 as a hexadecimal digit, in lower case.
pub fn hex_digit(number: u8) -> u8
    requires { number < 16 }
    ensures { result ≡ digit_glyph false number }
{
    if number < 10 {
        b'0' + number
    } else {
        b'a' + (number - 10)
    }
}

// The digit of a number below 10.
pub(crate) fn digit(number: u32) -> u8
    requires { number < 10 }
    ensures { result ≡ digit number }
{
    b'0' + number as u8
}

// How many bytes some thousandths have after a number: a point and digits, or none.
pub(crate) fn fraction_size(thousandths: u32) -> usize
    ensures value { result ≡ (if thousandths == 0 then 0 else decimals thousandths + 1) }
    ensures most { result ≤ 4 }
{
    if thousandths == 0 {
        return 0;
    }
    decimals(thousandths) + 1
}

// How many digits of some thousandths are not zeros at the end.
fn decimals(thousandths: u32) -> usize
    ensures value { result ≡ decimals thousandths }
    ensures most { result ≤ 3 }
{
    if thousandths % 100 == 0 {
        1
    } else if thousandths % 10 == 0 {
        2
    } else {
        3
    }
}
