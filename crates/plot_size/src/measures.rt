//! The width and the height that the numbers of an instruction give.
ghost use Rattle.std.specs.Prelude.{◌≡◌, ◌+◌, ◌^◌, ◌<◌, None, IfSome, is_some, fold, if◌then◌else◌};
ghost use Rattle.std.specs.List.{prefix_len};
ghost use Rattle.hpgl_text.specs.Bytes.{is_separator};
ghost use Rattle.hpgl_text.specs.Numbers.{begins_with_number, ends_numbers, number_length, number_value, numbers};
ghost use Rattle.hpgl_text.specs.Numbers.{past_numbers, past_separators};
ghost use Rattle.plot_size.specs.Measures.{measured, with_units};
ghost use Rattle.plot_size.specs.Sizes.{units};

use hpgl_text::{Number, after, is_at_end, read_number, separator_count};

/// The first two numbers that a text begins with up to the end of an instruction, in plotter units; the
/// second one need not be there. `None` if there are none, or another byte comes before the end.
pub fn measures_in(text: &[u8]) -> Option<(u64, Option<u64>)>
    ensures { result ≡ (if ends_numbers (past_numbers text.now) then measured (numbers text.now) else None) }
{
    let mut found = None;
    let mut left = text;
    let mut steps = text.len();
    'numbers: while steps > 0 {
        let Some((units, end)) = next_number(left) else {
            return found_before(left, found);
        };
        found = with_units(found, units);
        left = after(left, end);
        steps -= 1;
    }
    found_before(left, found)
}

// What was found, if an instruction may end after the commas and blanks that the text begins with.
fn found_before(text: &[u8], found: Option<(u64, Option<u64>)>) -> Option<(u64, Option<u64>)>
    ensures { result ≡ (if ends_numbers (past_separators text.now) then found else None) }
{
    if is_at_end(after(text, separator_count(text))) {
        found
    } else {
        None
    }
}

// The number after the commas and blanks that the text begins with, in plotter units, and the place after it.
fn next_number(text: &[u8]) -> Option<(u64, usize)>
    ensures found { is_some result ≡ begins_with_number (past_separators text.now) }
    ensures value { IfSome result (λ read. read.0 ≡ units (number_value (past_separators text.now))) }
    ensures end { IfSome result (λ read. read.1
        ≡ prefix_len is_separator text.now + number_length (past_separators text.now)) }
{
    match read_number(text, separator_count(text)) {
        Some((number, end)) => Some((units(number), end)),
        None => None,
    }
}

// With one number more: after the second one they change nothing.
fn with_units(found: Option<(u64, Option<u64>)>, units: u64) -> Option<(u64, Option<u64>)>
    ensures { result ≡ with_units found units }
{
    match found {
        None => Some((units, None)),
        Some((width, None)) => Some((width, Some(units))),
        Some((width, Some(height))) => Some((width, Some(height))),
    }
}

// A number in plotter units, to the nearest whole one; 0 if it is below 0.
fn units(number: Number) -> u64
    ensures { result ≡ units number }
{
    let millionths = number.millionths();
    if millionths < 0 {
        return 0;
    }
    (millionths.unsigned_abs() + 500_000) / 1_000_000
}
