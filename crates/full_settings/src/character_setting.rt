//! What CS, CA, SD, AD, SS and SA ask for.
ghost use Rattle.std.specs.Prelude.{◌≡◌};
ghost use Rattle.full_settings.specs.CharacterParameters.{names_unknown_set};

use character_sets::{CharacterSet, Selection};

/// What the instructions that choose sets of characters and fonts ask for.
#[derive(Clone, Copy, Debug, PartialEq, Eq)]
pub enum CharacterSetting {
    /// CS and CA: the standard or the alternate set; none if no set has the number, which changes nothing.
    Set(Selection, Option<CharacterSet>),
    /// SD and AD: the standard or the alternate font.
    Font(Selection, FontSetting),
    /// SS and SA: which set is selected, with its font.
    Select(Selection),
}

impl CharacterSetting {
    /// Whether a set is named that is not known.
    pub fn names_unknown_set(&self) -> bool
        ensures { result ≡ names_unknown_set self.now }
    {
        match self {
            CharacterSetting::Set(_, None) => true,
            CharacterSetting::Font(_, font) => font.has_unknown_set,
            _ => false,
        }
    }
}

/// What an SD or an AD names, each none if it stays as it is.
#[derive(Clone, Copy, Debug, PartialEq, Eq)]
pub struct FontSetting {
    /// The set of characters.
    pub set: Option<CharacterSet>,
    /// Whether the spacing is proportional.
    pub is_proportional: Option<bool>,
    /// In millionths of characters an inch, from 0.1 to 1500 characters.
    pub pitch: Option<u32>,
    /// In millionths of points, from 0.1 to 1500 points.
    pub height: Option<u32>,
    /// Whether letters are slanted by 0.2 more.
    pub is_italic: Option<bool>,
    /// Whether letters are drawn in twice the pen's width.
    pub is_bold: Option<bool>,
    /// Whether it names a set that is not known, which changes nothing.
    pub has_unknown_set: bool,
}
