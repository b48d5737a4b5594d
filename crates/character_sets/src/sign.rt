//! Signs: what a text is made of.
ghost use Rattle.std.specs.Prelude.{◌≡◌};
ghost use Rattle.character_sets.specs.Signs.{control, sign_of};

use crate::set::CharacterSet;

/// What a byte of a text, or a sequence of bytes in UTF-8, asks for.
#[derive(Clone, Copy, Debug, PartialEq, Eq, Drop)]
pub enum Sign {
    /// A printed character, by its code point.
    Printed(u32),
    /// CR, the byte 13.
    CarriageReturn,
    /// LF, the byte 10.
    LineFeed,
    /// BS, the byte 8.
    Back,
    /// HT, the byte 9.
    Tab,
}

impl Sign {
    // The sign of a byte in a set.
    pub(crate) fn of(set: CharacterSet, byte: u8) -> Option<Sign>
        ensures { result ≡ sign_of set byte }
    {
        match Sign::control(byte) {
            Some(sign) => Some(sign),
            None => set.code_point(byte).map(Sign::Printed),
        }
    }

    // The sign of a control character.
    pub(crate) fn control(byte: u8) -> Option<Sign>
        ensures { result ≡ control byte }
    {
        match byte {
            8 => Some(Sign::Back),
            9 => Some(Sign::Tab),
            10 => Some(Sign::LineFeed),
            13 => Some(Sign::CarriageReturn),
            _ => None,
        }
    }
}
