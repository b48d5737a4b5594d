//! Widths as text.
ghost use Rattle.std.specs.Prelude.{◌≡◌, ◌≤◌, IfSome, is_some, true};
ghost use Rattle.hpgl_text.specs.Numbers.{number_value};
ghost use Rattle.plot_page.specs.declared.stroke.TheConstants.{GREATEST_WIDTH};
ghost use Rattle.plot_settings.specs.Parameters.{is_width, width_grains};
ghost use Rattle.pen_list.specs.Widths.{is_number, width_written};

use exact::rounded;
use hpgl_text::{Number, read_number};

// The width in grains that a text writes in millimetres.
pub(crate) fn read_width(text: &str) -> Option<u32>
    ensures value { result ≡ width_written text.now }
    ensures range { IfSome result (λ width. width ≤ GREATEST_WIDTH) }
{
    let number = read_unsigned(text.as_bytes())?;
    if is_width(number) {
        Some(width_grains(number))
    } else {
        None
    }
}

// The number that all of the text is, if it has no sign.
fn read_unsigned(text: &[u8]) -> Option<Number>
    ensures found { is_some result ≡ is_number text.now }
    ensures value { IfSome result (λ number. number ≡ number_value text.now) }
{
    let (number, length) = read_number(text, 0)?;
    match text {
        [b'+' | b'-', ..] => None,
        _ if length < text.len() => None,
        _ => Some(number),
    }
}

fn is_width(number: Number) -> bool
    ensures { result ≡ is_width number }
{
    let millionths = number.millionths();
    0 <= millionths && millionths <= 20_000_000
}

// Millionths of a millimetre as grains.
fn width_grains(number: Number) -> u32
    requires { is_width number ≡ true }
    ensures value { result ≡ width_grains number }
    ensures range { result ≤ GREATEST_WIDTH }
{
    rounded(i128::from(640 * number.millionths()), 1_000_000) as u32
}
