//! The escape that a text begins with.
ghost use Rattle.std.specs.Prelude.{◌≡◌, ◌+◌, ◌<◌, length, Some, None, MatchOption, IfSome};
ghost use Rattle.escapes.specs.Views.{all_of};
ghost use Rattle.full_text.specs.Cut.{escape_at};

use escapes::{Step, first_step};
use hpgl_text::ESCAPE;

/// The first command of the escape that the text begins with. None if it begins with none.
#[inline(always)]
pub fn escape_at<'a>(text: &'a [u8]) -> Option<Step<'a>>
    ensures value { MatchOption result (escape_at text.now ≡ None) (λ s. escape_at text.now ≡ Some (all_of s)) }
    ensures shorter { IfSome result (λ s. length s.rest.now + 1 < length text.now) }
{
    match text {
        [ESCAPE, after @ ..] => first_step(after),
        _ => None,
    }
}
