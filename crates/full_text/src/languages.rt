//! The language that is read.
ghost use Rattle.std.specs.Prelude.{◌≡◌, fold};
ghost use Rattle.escapes.specs.Escapes.{escape};
ghost use Rattle.escapes.specs.Views.{said, all_of};
ghost use Rattle.full_text.specs.Languages.{first_asked, entered_by, has_instructions_next, language_by, language_after};

use escapes::{Step, first_step};
use hpgl_text::{ESCAPE, past};
use memchr::memchr;
use raster_requests::{Language, Request};

/// The language after an escape, by its first command.
pub fn language_after(language: Language, first: Step<'_>) -> Language
    ensures { result ≡ language_after language (all_of first.entry) }
{
    let rest = first.end();
    let mut last = first;
    let mut left = language_by(rest, language, Request::of(&first.command));
    'commands: while let Some(next) = last.following() {
        left = language_by(rest, left, Request::of(&next.command));
        last = next;
    }
    left
}

// The language after a request.
fn language_by(rest: &[u8], language: Language, request: Request) -> Language
    ensures { result ≡ language_by rest.now language request }
{
    match request {
        Request::Enter(entered, _) => entered,
        Request::Start(_) => Language::Rtl,
        Request::Reset if has_instructions_next(rest) => Language::Rtl,
        _ => language,
    }
}

// Whether the next form that enters a language or is a reset, in the bytes of the text, is ESC % B.
fn has_instructions_next(text: &[u8]) -> bool
    ensures { result ≡ has_instructions_next text.now }
{
    let mut left = text;
    'escapes: while let Some(place) = memchr(ESCAPE, left) {
        left = past(left, place + 1);
        if let Some(are_instructions) = entered_by(first_asked(left)) {
            return are_instructions;
        }
    }
    false
}

// Whether HP-GL/2 is entered by a request that enters a language or is a reset. None if it is another.
fn entered_by(request: Request) -> Option<bool>
    ensures { result ≡ entered_by request }
{
    match request {
        Request::Enter(Language::Hpgl2, _) => Some(true),
        Request::Enter(Language::Rtl, _) | Request::Reset => Some(false),
        _ => None,
    }
}

// What the first command after an ESC asks.
fn first_asked(text: &[u8]) -> Request
    ensures { result ≡ first_asked (escape text.now) }
{
    match first_step(text) {
        None => Request::Nothing,
        Some(first) => Request::of(&first.command),
    }
}
