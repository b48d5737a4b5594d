//! What is set of the letters of labels.
ghost use Rattle.std.specs.Prelude.{◌≡◌, ◌≤◌, ◌^◌, nat_abs};
ghost use Rattle.directions.specs.Directions.{vector_turned};
ghost use Rattle.plot_frame.specs.Bounds.{IsPoints};
ghost use Rattle.full_settings.specs.LetterParameters.{IsLetterSetting, IsPairWithin};
ghost use Rattle.full_settings.specs.Letters.{usual_letters, letters_with, IsLed, letter_size_in, direction_in, style_in};
ghost use Rattle.full_settings.specs.Characters.{IsFont};
ghost use Rattle.full_settings.specs.Letters as letters;

use crate::font::Font;
use crate::heading::Heading;
use crate::letter_setting::LetterSetting;
use crate::letter_size::LetterSize;
use crate::line_style::distance;
use directions::{Direction, Turn};
use exact::rounded;
use lettering::{Lettering, LineFeed, Path, Style};
use plot_frame::{Ends, Pair};
use std::marker::Model;
use stick_font::CharacterSize;

// How much more the letters of an italic font are slanted, in millionths.
const ITALIC_SLANT: i64 = 200_000;

/// What is set of the letters of labels besides the numbers of SI (Absolute Character Size).
#[derive(Clone, Copy, Debug)]
pub struct Letters {
    size: LetterSize,
    heading: Heading,
    slant: i64,
    step: Pair<i64>,
    origin: u8,
    path: Path,
    line_feed: LineFeed,
}

impl Model for Letters {
    ghost use Rattle.full_settings.specs.Letters.{LetterStyle, IsLetters};

    ghost Value = { LetterStyle };

    ghost view = { λ l. record {
      size = l.size;
      heading = l.heading;
      slant = l.slant;
      step = l.step;
      origin = l.origin;
      path = l.path;
      line_feed = l.line_feed;
    } };

    ghost invariant = { λ l. IsLetters (record {
      size = l.size;
      heading = l.heading;
      slant = l.slant;
      step = l.step;
      origin = l.origin;
      path = l.path;
      line_feed = l.line_feed;
    }) };

    ghost inverse = { λ l. record {
      size = l.size;
      heading = l.heading;
      slant = l.slant;
      step = l.step;
      origin = l.origin;
      path = l.path;
      line_feed = l.line_feed;
    } };
}

impl Letters {
    /// What is set at the start, and by IN and DF: the size of the font, to the right, upright, no extra
    /// space, from the label's start on.
    pub fn usual() -> Letters
        ensures { result ≡ usual_letters }
    {
        Letters {
            size: LetterSize::ByFont,
            heading: Heading::Absolute(Pair { x: 1_000_000, y: 0 }),
            slant: 0,
            step: Pair {
                x: 1_000_000,
                y: 1_000_000,
            },
            origin: 1,
            path: Path::Right,
            line_feed: LineFeed::Normal,
        }
    }

    /// Sets what an instruction asks for.
    pub fn set(&mut self, setting: LetterSetting)
        requires { IsLetterSetting setting }
        ensures { self.new ≡ letters_with setting self.old }
    {
        match setting {
            LetterSetting::FontSize => self.size = LetterSize::ByFont,
            LetterSetting::AbsoluteSize => self.size = LetterSize::Absolute,
            LetterSetting::RelativeSize(percents) => self.size = LetterSize::Relative(percents),
            LetterSetting::Direction(heading) => self.heading = Heading::Absolute(heading),
            LetterSetting::RelativeDirection(heading) => self.heading = Heading::Relative(heading),
            LetterSetting::Slant(tangent) => self.slant = tangent,
            LetterSetting::Step(step) => self.step = step,
            LetterSetting::Origin(position) => self.origin = position,
            LetterSetting::Path(path, line_feed) => {
                self.path = path;
                self.line_feed = line_feed;
            }
        }
    }

    /// The style in which letters are written: by the font that is selected, the size of SI, P1 and P2 as
    /// they are now, and turned by RO (Rotate Coordinate System).
    pub fn lettering(
        &self,
        font: Font,
        size: CharacterSize,
        points: &Pair<Ends>,
        turn: Turn,
    ) -> Lettering
        requires font_in { IsFont font }
        requires points_in { IsPoints points.now }
        ensures { result.style ≡ style_in self.now font size points.now turn }
    {
        let size = self.size(font, size, points);
        Lettering {
            style: Style {
                width: size.x,
                height: size.y,
                direction: direction(self.heading, points).turned(turn),
                slant: slant_in_font(self.slant, font),
                step_x: self.step.x,
                step_y: self.step.y,
                path: self.path,
                line_feed: self.line_feed,
                origin: self.origin,
            },
        }
    }

    // The width and the height in grains.
    fn size(&self, font: Font, size: CharacterSize, points: &Pair<Ends>) -> Pair<i64>
        requires font_in { IsFont font }
        requires points_in { IsPoints points.now }
        ensures value { result ≡ letter_size_in self.now.size font size points.now }
        ensures within { IsPairWithin (2 ^ 40) result }
    {
        match self.size {
            LetterSize::ByFont => font.size(),
            LetterSize::Absolute => Pair {
                x: i64::from(size.width),
                y: i64::from(size.height),
            },
            LetterSize::Relative(percents) => Pair {
                x: grains_of_share(distance(points.x), percents.x),
                y: grains_of_share(distance(points.y), percents.y),
            },
        }
    }
}

// The tangent of the slant in millionths, with that of the font.
fn slant_in_font(slant: i64, font: Font) -> i64
    requires { nat_abs slant ≤ 10 ^ 9 }
    ensures value { result ≡ letters.slant_in_font slant font }
    ensures most { nat_abs result ≤ 1000200000 }
{
    if font.is_italic {
        slant + ITALIC_SLANT
    } else {
        slant
    }
}

// Where labels lead, before RO turns them.
fn direction(heading: Heading, points: &Pair<Ends>) -> Direction
    requires heading_in { IsLed heading }
    requires points_in { IsPoints points.now }
    ensures { result ≡ direction_in heading points.now }
{
    match heading {
        Heading::Absolute(vector) => Direction::unit(i128::from(vector.x), i128::from(vector.y)),
        Heading::Relative(vector) => Direction::unit(
            i128::from(distance(points.x)) * i128::from(vector.x),
            i128::from(distance(points.y)) * i128::from(vector.y),
        ),
    }
}

/// Millionths of a percent of a distance in plotter units, as a length in grains.
pub fn grains_of_share(distance: i64, percent: i64) -> i64
    requires distance_in { nat_abs distance ≤ 2 ^ 25 }
    requires percent_in { nat_abs percent ≤ 1000000000 }
    ensures value { result ≡ letters.grains_of_share distance percent }
    ensures most { nat_abs result ≤ 2 ^ 40 }
{
    rounded(16 * i128::from(distance) * i128::from(percent), 100_000_000) as i64
}
