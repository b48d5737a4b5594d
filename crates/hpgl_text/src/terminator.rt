//! The terminator of labels, and what a DT says of it.
ghost use Rattle.std.specs.Prelude.{◌≡◌, length};
ghost use Rattle.hpgl_text.specs.Seen.{body_shape};
ghost use Rattle.hpgl_text.specs.Terminators.{named_terminator, named_with_mode, unprinted, text_ended_by};
ghost use Rattle.hpgl_text.specs.Terminators.{begins_with_printing, begins_with_zero};

use crate::bytes::{ESCAPE, after, before, blank_count, count_through, text_before};
use crate::item::Body;
use crate::reading::first_number;
use exact::rounded;

/// What ends the texts of labels.
#[derive(Clone, Copy, Debug, PartialEq, Eq)]
pub struct Terminator {
    /// The byte that ends a text.
    pub byte: u8,
    /// Whether it is the last byte of the text, too; never in the profile core.
    pub is_printed: bool,
}

/// The terminator until another is defined: ETX, not printed.
pub const FIRST_TERMINATOR: Terminator = Terminator {
    byte: 3,
    is_printed: false,
};

/// The text up to the terminator, and with it if it is printed and is there.
pub fn text_up_to(terminator: Terminator, text: &[u8]) -> &[u8]
    ensures { result.now ≡ text_ended_by terminator text.now }
{
    if terminator.is_printed {
        before(text, count_through(terminator.byte, text))
    } else {
        text_before(terminator.byte, text)
    }
}

/// The terminator that a DT defines, or a bad instruction: NUL, LF and ESC cannot be one.
pub fn label_end_of<'a>(text: &[u8]) -> Body<'a>
    ensures { body_shape result ≡ named_terminator text.now }
{
    match text {
        [] => Body::Bad,
        [b';', ..] => Body::Terminator(FIRST_TERMINATOR),
        [0, ..] | [b'\n', ..] | [ESCAPE, ..] => Body::Bad,
        [byte, ..] => Body::Terminator(unprinted_byte(*byte)),
    }
}

/// The same with its mode, which the profile full reads.
pub fn label_end_with_mode_of<'a>(text: &[u8]) -> Body<'a>
    ensures { body_shape result ≡ named_with_mode text.now }
{
    match label_end_of(text) {
        Body::Terminator(end) if text[0] != b';' => Body::Terminator(Terminator {
            byte: end.byte,
            is_printed: does_begin_with_printing(&text[1..]),
        }),
        body => body,
    }
}

fn unprinted_byte(byte: u8) -> Terminator
    ensures { result ≡ unprinted byte }
{
    Terminator {
        byte,
        is_printed: false,
    }
}

// Whether the mode that prints the terminator is next: a comma, any blanks, and a 0.
fn does_begin_with_printing(text: &[u8]) -> bool
    ensures { result ≡ begins_with_printing text.now }
{
    match text {
        [b',', rest @ ..] => does_begin_with_zero(after(rest, blank_count(rest))),
        _ => false,
    }
}

// Whether the text begins with a number that rounds to 0.
fn does_begin_with_zero(text: &[u8]) -> bool
    ensures { result ≡ begins_with_zero text.now }
{
    match first_number(text) {
        Some((number, _)) => rounded(i128::from(number.millionths()), 1_000_000) == 0,
        None => false,
    }
}
