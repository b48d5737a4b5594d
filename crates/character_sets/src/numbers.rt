//! The numbers of sets.
ghost use Rattle.std.specs.Prelude.{◌≡◌};
ghost use Rattle.character_sets.specs.Numbers.{set_of_hp_number, set_of_symbol_set};

use crate::set::CharacterSet;

impl CharacterSet {
    /// The set with a number of HP-GL/2's symbol sets (SD's and AD's kind 1), or `None` if there is none:
    /// 32 times the number of HP's name plus the place of its letter in the alphabet, so 8U is 277.
    pub fn by_symbol_set(number: u32) -> Option<CharacterSet>
        ensures { result ≡ set_of_symbol_set number }
    {
        match number {
            277 => Some(CharacterSet::Roman8),
            14 => Some(CharacterSet::Latin1),
            629 => Some(CharacterSet::Windows1252),
            341 => Some(CharacterSet::Pc8),
            21 => Some(CharacterSet::Ascii),
            85 => Some(CharacterSet::InternationalReference),
            37 => Some(CharacterSet::UnitedKingdom),
            39 => Some(CharacterSet::German),
            38 => Some(CharacterSet::French),
            6 => Some(CharacterSet::OldFrench),
            9 => Some(CharacterSet::Italian),
            83 => Some(CharacterSet::Spanish),
            147 => Some(CharacterSet::Portuguese),
            115 => Some(CharacterSet::Swedish),
            19 => Some(CharacterSet::SwedishNames),
            4 => Some(CharacterSet::NorwegianDanish),
            36 => Some(CharacterSet::Norwegian),
            11 => Some(CharacterSet::Japanese),
            _ => None,
        }
    }

    /// The set with a number of HP-GL (CS and CA), or `None` if there is none.
    pub fn by_hp_number(number: u32) -> Option<CharacterSet>
        ensures { result ≡ set_of_hp_number number }
    {
        match number {
            0 => Some(CharacterSet::Ascii),
            1 => Some(CharacterSet::Hp9825),
            2 => Some(CharacterSet::FrenchGerman),
            3 => Some(CharacterSet::Scandinavian),
            4 => Some(CharacterSet::SpanishLatinAmerican),
            6 => Some(CharacterSet::Japanese),
            7 => Some(CharacterSet::RomanExtensions),
            9 => Some(CharacterSet::InternationalReference),
            30 => Some(CharacterSet::Swedish),
            31 => Some(CharacterSet::SwedishNames),
            32 => Some(CharacterSet::NorwegianDanish),
            33 => Some(CharacterSet::German),
            34 => Some(CharacterSet::OldFrench),
            35 => Some(CharacterSet::UnitedKingdom),
            36 => Some(CharacterSet::Italian),
            37 => Some(CharacterSet::Spanish),
            38 => Some(CharacterSet::Portuguese),
            39 => Some(CharacterSet::Norwegian),
            _ => None,
        }
    }
}
