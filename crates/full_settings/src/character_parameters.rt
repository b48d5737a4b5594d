//! What the numbers of CS, CA, SD and AD ask for, or `None` if they are wrong.
ghost use Rattle.std.specs.Prelude.{◌≡◌, ◌≤◌, ◌^◌, nat_abs, IfSome, Some};
ghost use Rattle.character_sets.specs.Numbers.{set_of_hp_number, set_of_symbol_set};
ghost use Rattle.plot_settings.specs.Parameters.{whole_of, when};
ghost use Rattle.full_settings.specs.CharacterParameters as parameters;
ghost use Rattle.full_settings.specs.CharacterParameters.{IsCharacterSetting, IsFontSetting, IsFontSize, set_with};

use crate::character_setting::{CharacterSetting, FontSetting};
use character_sets::{CharacterSet, Selection};
use hpgl_text::{Number, Numbers};
use plot_settings::whole_number;

// Nothing is named.
const NO_FONT: FontSetting = FontSetting {
    set: None,
    is_proportional: None,
    pitch: None,
    height: None,
    is_italic: None,
    is_bold: None,
    has_unknown_set: false,
};

// What an SD or an AD without numbers names.
const USUAL_FONT: FontSetting = FontSetting {
    set: Some(CharacterSet::Roman8),
    is_proportional: Some(false),
    pitch: Some(9_000_000),
    height: Some(11_500_000),
    is_italic: Some(false),
    is_bold: Some(false),
    has_unknown_set: false,
};

/// CS and CA number (Designate Standard and Alternate Character Set): the set with this number, or that
/// with number 0 if no number is there.
pub fn set_choice(selection: Selection, numbers: &[Number]) -> CharacterSetting
    ensures value { result ≡ parameters.set_choice selection numbers.now }
    ensures sound { IsCharacterSetting result }
{
    let set = match numbers {
        [] => CharacterSet::by_hp_number(0),
        [number, ..] => set_of_hp_gl(whole_number(*number)),
    };
    CharacterSetting::Set(selection, set)
}

// The set of HP-GL with this number.
fn set_of_hp_gl(number: i64) -> Option<CharacterSet>
    ensures { result ≡ set_with set_of_hp_number number }
{
    if 0 <= number && number <= 9_999 {
        CharacterSet::by_hp_number(number as u32)
    } else {
        None
    }
}

// The set of HP-GL/2 with this number.
fn set_of_hp_gl_2(number: i64) -> Option<CharacterSet>
    ensures { result ≡ set_with set_of_symbol_set number }
{
    if 0 <= number && number <= 9_999 {
        CharacterSet::by_symbol_set(number as u32)
    } else {
        None
    }
}

/// SD and AD kind, value, .. (Standard and Alternate Font Definition): what the pairs name, or all as at
/// the start if no number is there. `None` if a value is missing, a spacing is not 0 or 1, or a pitch or a
/// height is not 0.1 to 1500.
pub fn font_choice(selection: Selection, numbers: &Numbers<'_>) -> Option<CharacterSetting>
    ensures value { result ≡ parameters.font_choice selection numbers.now }
    ensures sound { IfSome result IsCharacterSetting }
{
    let setting = font_setting(numbers)?;
    Some(CharacterSetting::Font(selection, setting))
}

fn font_setting(numbers: &Numbers<'_>) -> Option<FontSetting>
    ensures value { result ≡ parameters.font_setting numbers.now }
    ensures sound { IfSome result IsFontSetting }
{
    if numbers.len() == 0 {
        return Some(USUAL_FONT);
    }
    font_of_pairs(numbers.iter())
}

// What pairs name, one after another.
fn font_of_pairs(numbers: Numbers<'_>) -> Option<FontSetting>
    ensures value { result ≡ parameters.with_pairs parameters.no_font numbers.entry }
    ensures sound { IfSome result IsFontSetting }
{
    let mut setting = NO_FONT;
    let mut rest = numbers;
    'pairs: while let Some(kind) = rest.next() {
        let value = rest.next()?;
        setting = with_kind(whole_number(kind), value, setting)?;
    }
    Some(setting)
}

// With one more pair.
fn with_kind(kind: i64, value: Number, setting: FontSetting) -> Option<FontSetting>
    requires { IsFontSetting setting }
    ensures value { result ≡ parameters.with_kind kind value setting }
    ensures sound { IfSome result IsFontSetting }
{
    match kind {
        1 => Some(with_set(set_of_hp_gl_2(whole_number(value)), setting)),
        2 => Some(FontSetting {
            is_proportional: Some(spacing(whole_number(value))?),
            ..setting
        }),
        3 => Some(FontSetting {
            pitch: Some(font_size(value.millionths())?),
            ..setting
        }),
        4 => Some(FontSetting {
            height: Some(font_size(value.millionths())?),
            ..setting
        }),
        5 => Some(FontSetting {
            is_italic: Some(is_italic(whole_number(value))),
            ..setting
        }),
        6 => Some(FontSetting {
            is_bold: Some(is_bold(whole_number(value))),
            ..setting
        }),
        _ => Some(setting),
    }
}

// With a set, or with one that is not known.
fn with_set(set: Option<CharacterSet>, setting: FontSetting) -> FontSetting
    requires { IsFontSetting setting }
    ensures value { result ≡ parameters.with_set set setting }
    ensures sound { IsFontSetting result }
{
    match set {
        Some(set) => FontSetting {
            set: Some(set),
            ..setting
        },
        None => FontSetting {
            has_unknown_set: true,
            ..setting
        },
    }
}

// Whether a spacing is proportional.
fn spacing(number: i64) -> Option<bool>
    ensures { result ≡ parameters.spacing number }
{
    match number {
        0 => Some(false),
        1 => Some(true),
        _ => None,
    }
}

// Whether a posture is italic.
fn is_italic(posture: i64) -> bool
    ensures { result ≡ parameters.is_italic_posture posture }
{
    1 <= posture && posture <= 2
}

// Whether a weight is bold.
fn is_bold(weight: i64) -> bool
    ensures { result ≡ parameters.is_bold_weight weight }
{
    3 <= weight && weight <= 7
}

// A pitch or a height in millionths.
fn font_size(millionths: i64) -> Option<u32>
    ensures value { result ≡ parameters.size_of_font millionths }
    ensures sound { IfSome result IsFontSize }
{
    if 100_000 <= millionths && millionths <= 1_500_000_000 {
        Some(millionths as u32)
    } else {
        None
    }
}
