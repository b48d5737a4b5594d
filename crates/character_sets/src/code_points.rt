//! The characters of bytes.
ghost use Rattle.std.specs.Prelude.{◌≡◌, ◌≤◌};
ghost use Rattle.character_sets.specs.CodePoints.{code_point, table_entry, lower, replaced_place};
ghost use Rattle.character_sets.specs.CodePoints.{replaced, replacements, upper};

use crate::national::{
    FRENCH, FRENCH_GERMAN, GERMAN, HP_9825, INTERNATIONAL_REFERENCE, ITALIAN, JAPANESE, NORWEGIAN,
    NORWEGIAN_DANISH, OLD_FRENCH, PORTUGUESE, SCANDINAVIAN, SPANISH, SPANISH_LATIN_AMERICAN,
    SWEDISH, SWEDISH_NAMES, UNITED_KINGDOM,
};
use crate::set::CharacterSet;
use crate::tables::{OPEN, PC_8, ROMAN_8, WINDOWS_1252};

impl CharacterSet {
    #[tactic(auto, unfolding(crate::specs::CodePoints::code_point))]
    /// The code point of the printed character that a byte is, or `None` if the byte is not printed: the
    /// bytes below 32, 127, those from 128 to 159 in most sets, and those that the set leaves open.
    pub fn code_point(self, byte: u8) -> Option<u32>
        ensures { result ≡ code_point self byte }
    {
        match byte {
            b' '..=b'~' => self.lower(byte),
            0x80.. => self.upper(byte),
            _ => None,
        }
    }

    // The character of a byte from 32 to 126.
    fn lower(self, byte: u8) -> Option<u32>
        requires least { 32 ≤ byte }
        requires most { byte ≤ 126 }
        ensures { result ≡ lower self byte }
    {
        match self {
            CharacterSet::RomanExtensions if byte > b' ' => CharacterSet::Roman8.upper(byte + 128),
            _ => Some(self.replaced(byte)),
        }
    }

    // The character of a byte from 128 on.
    fn upper(self, byte: u8) -> Option<u32>
        requires { 128 ≤ byte }
        ensures { result ≡ upper self byte }
    {
        match self {
            CharacterSet::Pc8 => table_entry(PC_8[usize::from(byte - 128)]),
            CharacterSet::Windows1252 if byte < 160 => table_entry(
                WINDOWS_1252[usize::from(byte - 128)],
            ),
            _ if byte < 160 => None,
            CharacterSet::Latin1 | CharacterSet::Windows1252 => Some(u32::from(byte)),
            _ => table_entry(ROMAN_8[usize::from(byte - 160)]),
        }
    }

    // The character of a byte of ASCII.
    fn replaced(self, byte: u8) -> u32
        ensures { result ≡ replaced self byte }
    {
        match self.replacements().get(replaced_place(byte)) {
            Some(character) => u32::from(*character),
            None => u32::from(byte),
        }
    }

    // What the set has in place of characters of ASCII.
    fn replacements(self) -> &'static [char]
        ensures { result.now ≡ replacements self }
    {
        match self {
            CharacterSet::InternationalReference => &INTERNATIONAL_REFERENCE,
            CharacterSet::UnitedKingdom => &UNITED_KINGDOM,
            CharacterSet::German => &GERMAN,
            CharacterSet::French => &FRENCH,
            CharacterSet::OldFrench => &OLD_FRENCH,
            CharacterSet::Italian => &ITALIAN,
            CharacterSet::Spanish => &SPANISH,
            CharacterSet::Portuguese => &PORTUGUESE,
            CharacterSet::Swedish => &SWEDISH,
            CharacterSet::SwedishNames => &SWEDISH_NAMES,
            CharacterSet::NorwegianDanish => &NORWEGIAN_DANISH,
            CharacterSet::Norwegian => &NORWEGIAN,
            CharacterSet::Japanese => &JAPANESE,
            CharacterSet::Hp9825 => &HP_9825,
            CharacterSet::FrenchGerman => &FRENCH_GERMAN,
            CharacterSet::Scandinavian => &SCANDINAVIAN,
            CharacterSet::SpanishLatinAmerican => &SPANISH_LATIN_AMERICAN,
            _ => &[],
        }
    }
}

// The character of an entry of a table.
fn table_entry(character: char) -> Option<u32>
    ensures { result ≡ table_entry character }
{
    match character {
        OPEN => None,
        _ => Some(u32::from(character)),
    }
}

// The place of a byte among those that sets replace, or their number if it is not there.
fn replaced_place(byte: u8) -> usize
    ensures { result ≡ replaced_place byte }
{
    match byte {
        b'#' => 0,
        b'$' => 1,
        b'\'' => 2,
        b'@' => 3,
        b'[' => 4,
        b'\\' => 5,
        b']' => 6,
        b'^' => 7,
        b'`' => 8,
        b'{' => 9,
        b'|' => 10,
        b'}' => 11,
        b'~' => 12,
        _ => 13,
    }
}
