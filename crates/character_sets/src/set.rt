//! The sets.
ghost use Rattle.std.specs.Prelude.{◌≡◌};
ghost use Rattle.character_sets.specs.Ascii.{has_ascii};

/// A set of characters. Those of eight bits have characters from 160 on, and PC-8 and Windows-1252
/// from 128 on. In a set of seven bits these bytes are Roman-8's.
#[derive(Clone, Copy, Debug, PartialEq, Eq, Drop)]
pub enum CharacterSet {
    /// HP's Roman-8.
    Roman8,
    /// ISO 8859-1.
    Latin1,
    /// Windows-1252.
    Windows1252,
    /// PC-8, which is code page 437 without its shades, boxes and blocks.
    Pc8,
    /// ASCII.
    Ascii,
    /// ISO 2, the international reference version.
    InternationalReference,
    /// ISO 4.
    UnitedKingdom,
    /// ISO 21.
    German,
    /// ISO 69.
    French,
    /// ISO 25, the French set before ISO 69.
    OldFrench,
    /// ISO 15.
    Italian,
    /// ISO 17.
    Spanish,
    /// ISO 16.
    Portuguese,
    /// ISO 10.
    Swedish,
    /// ISO 11, Swedish for names.
    SwedishNames,
    /// ISO 60, version 1.
    NorwegianDanish,
    /// ISO 61, version 2.
    Norwegian,
    /// ISO 14, JIS ASCII.
    Japanese,
    /// Set 1 of HP-GL, of the HP 9825.
    Hp9825,
    /// Set 2 of HP-GL.
    FrenchGerman,
    /// Set 3 of HP-GL.
    Scandinavian,
    /// Set 4 of HP-GL.
    SpanishLatinAmerican,
    /// Set 7 of HP-GL: the upper half of Roman-8.
    RomanExtensions,
}

impl CharacterSet {
    /// Whether it has all characters of ASCII.
    pub fn has_ascii(self) -> bool
        ensures { result ≡ has_ascii self }
    {
        match self {
            CharacterSet::Roman8
            | CharacterSet::Latin1
            | CharacterSet::Windows1252
            | CharacterSet::Pc8
            | CharacterSet::Ascii => true,
            _ => false,
        }
    }
}
