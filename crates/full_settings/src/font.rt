//! The font of a set of characters.
ghost use Rattle.std.specs.Prelude.{◌≡◌, ◌≤◌, ◌^◌, ◌*◌, pos, nat_abs};
ghost use Rattle.exact.specs.Fraction.{round};
ghost use Rattle.full_settings.specs.LetterParameters.{IsPairWithin};
ghost use Rattle.full_settings.specs.Characters as characters;
ghost use Rattle.full_settings.specs.Characters.{IsFont, usual_font, font_with};

use crate::character_setting::FontSetting;
use exact::rounded;
use plot_frame::Pair;

/// The font of a set of characters, as far as it has an effect: the size of its letters, their slant and the width of their
/// strokes.
#[derive(Clone, Copy, Debug, PartialEq, Eq)]
pub struct Font {
    /// Whether its spacing is proportional. Then its pitch has no effect.
    pub is_proportional: bool,
    /// In millionths of characters an inch, from 0.1 to 1500 characters.
    pub pitch: u32,
    /// In millionths of points, from 0.1 to 1500 points.
    pub height: u32,
    /// Whether its letters are slanted by 0.2 more than SL says.
    pub is_italic: bool,
    /// Whether its letters are drawn in twice the pen's width.
    pub is_bold: bool,
}

// How high a letter of 23 points is, and how wide one of proportional spacing, in grains.
const HEIGHT: u32 = 3456;

const PROPORTIONAL_WIDTH: u32 = 1980;

impl Font {
    /// The font at the start, and after IN and DF: fixed spacing, 9 characters an inch, 11.5 points,
    /// upright, not bold.
    pub const USUAL: Font = Font {
        is_proportional: false,
        pitch: 9_000_000,
        height: 11_500_000,
        is_italic: false,
        is_bold: false,
    };

    /// The width and the height of its letters in grains.
    pub fn size(self) -> Pair<i64>
        requires { IsFont self }
        ensures value { result ≡ characters.font_size self }
        ensures within { IsPairWithin (2 ^ 40) result }
    {
        Pair {
            x: self.width(),
            y: length_at_height(HEIGHT, self.height),
        }
    }

    // The width of its letters in grains.
    fn width(self) -> i64
        requires { IsFont self }
        ensures value { result ≡ characters.font_width self }
        ensures within { nat_abs result ≤ 2 ^ 40 }
    {
        if self.is_proportional {
            length_at_height(PROPORTIONAL_WIDTH, self.height)
        } else {
            width_at_pitch(self.pitch)
        }
    }

    // With what SD or AD names.
    pub(crate) fn with(self, setting: FontSetting) -> Font
        ensures { result ≡ font_with setting self }
    {
        Font {
            is_proportional: setting.is_proportional.unwrap_or(self.is_proportional),
            pitch: setting.pitch.unwrap_or(self.pitch),
            height: setting.height.unwrap_or(self.height),
            is_italic: setting.is_italic.unwrap_or(self.is_italic),
            is_bold: setting.is_bold.unwrap_or(self.is_bold),
        }
    }
}

// The length in grains that a length at 23 points becomes at this height, in millionths of points.
fn length_at_height(length: u32, height: u32) -> i64
    requires length_in { length ≤ 3456 }
    requires height_in { height ≤ 1500000000 }
    ensures value { result ≡ round (record { over = pos (length * height); under = 23 * 10 ^ 6 }) }
    ensures most { nat_abs result ≤ 2 ^ 40 }
{
    rounded(
        i128::from(u64::from(length) * u64::from(height)),
        23_000_000,
    ) as i64
}

// The width of a letter in grains, by its pitch in millionths of characters an inch.
fn width_at_pitch(pitch: u32) -> i64
    requires { 100000 ≤ pitch }
    ensures value { result ≡ round (record { over = pos (10944 * 10 ^ 6); under = pitch }) }
    ensures most { nat_abs result ≤ 2 ^ 40 }
{
    rounded(10_944_000_000, i128::from(pitch)) as i64
}
