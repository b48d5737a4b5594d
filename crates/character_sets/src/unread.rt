//! The bytes of a text that are not read yet.
ghost use Rattle.std.specs.Prelude.{◌≡◌, ◌<◌, ◌∷◌, ◌++◌, [], length, None};
ghost use Rattle.std.specs.Option.{option_to_list};
ghost use Rattle.character_sets.specs.Texts.{sign_begun};

use crate::set::CharacterSet;
use crate::sets::Sets;
use crate::sign::Sign;
use crate::utf8::sequence;

// How bytes are read: by these sets, or as UTF-8.
#[derive(Clone, Copy, Drop)]
pub enum By {
    Sets(Sets),
    Utf8,
}

// The bytes of a text that are not read yet.
#[derive(Clone, Copy, Drop)]
pub struct Unread<'a> {
    pub by: By,
    pub rest: &'a [u8],
}

impl<'a> Unread<'a> {
    ghost use Rattle.character_sets.specs.Left.{signs_left};

    // The next sign.
    pub fn next(&mut self) -> Option<Sign>
        ensures taken { signs_left self.old ≡ option_to_list result ++ signs_left self.new }
        ensures none { result ≡ None → signs_left self.new ≡ [] }
    {
        'bytes: while let Some((byte, after)) = self.rest.split_first() {
            if let Some(sign) = self.pass(*byte, after) {
                return Some(sign);
            }
        }
        None
    }

    // Goes on past the first byte: its sign, or in UTF-8 that of the sequence that it begins, if any.
    fn pass(&mut self, byte: u8, after: &'a [u8]) -> Option<Sign>
        requires { self.old.rest.now ≡ byte ∷ after.now }
        ensures taken { signs_left self.old ≡ option_to_list result ++ signs_left self.new }
        ensures shorter { length self.new.rest.now < length self.old.rest.now }
    {
        self.rest = after;
        match self.by {
            By::Sets(sets) => {
                self.by = By::Sets(sets.shifted(byte));
                Sign::of(sets.selected(), byte)
            }
            By::Utf8 => sign_begun(byte, sequence(byte, after)),
        }
    }
}

// The sign of a byte that begins a sequence with this code point, or none.
fn sign_begun(byte: u8, sequence: Option<u32>) -> Option<Sign>
    ensures { result ≡ sign_begun byte sequence }
{
    match sequence {
        Some(code @ 0xA0..) => Some(Sign::Printed(code)),
        None if byte.is_ascii() => Sign::of(CharacterSet::Ascii, byte),
        _ => None,
    }
}
