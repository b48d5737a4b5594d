//! What is chosen of sets of characters and of fonts.
ghost use Rattle.std.specs.Prelude.{◌≡◌};
ghost use Rattle.full_settings.specs.CharacterParameters.{IsCharacterSetting, IsFontSetting};
ghost use Rattle.full_settings.specs.Characters.{IsFont, usual_characters, characters_with, characters_after};
ghost use Rattle.full_settings.specs.Characters.{selected_font, sets_with, fonts_with};

use crate::character_setting::{CharacterSetting, FontSetting};
use crate::font::Font;
use character_sets::{CharacterSet, Selection, Sets};
use std::marker::Model;

/// The standard and the alternate set of characters, which of them is selected, and a font with each.
#[derive(Clone, Copy, Debug)]
pub struct Characters {
    sets: Sets,
    standard_font: Font,
    alternate_font: Font,
}

impl Model for Characters {
    ghost use Rattle.full_settings.specs.Characters.{Characters, IsCharacters};

    ghost Value = { Characters };

    ghost view = { λ c. record {
      sets = c.sets;
      standard_font = c.standard_font;
      alternate_font = c.alternate_font;
    } };

    ghost invariant = { λ c. IsCharacters (record {
      sets = c.sets;
      standard_font = c.standard_font;
      alternate_font = c.alternate_font;
    }) };

    ghost inverse = { λ c. record {
      sets = c.sets;
      standard_font = c.standard_font;
      alternate_font = c.alternate_font;
    } };
}

impl Characters {
    /// What is chosen at the start, and by IN and DF: Roman-8 and the usual font twice, the standard ones
    /// selected.
    pub fn usual() -> Characters
        ensures { result ≡ usual_characters }
    {
        Characters {
            sets: Sets::START,
            standard_font: Font::USUAL,
            alternate_font: Font::USUAL,
        }
    }

    /// Chooses what an instruction asks for.
    pub fn set(&mut self, setting: CharacterSetting)
        requires { IsCharacterSetting setting }
        ensures { self.new ≡ characters_with setting self.old }
    {
        match setting {
            CharacterSetting::Set(selection, set) => {
                self.sets = sets_with(selection, set, self.sets);
            }
            CharacterSetting::Font(selection, font) => self.set_font(selection, font),
            CharacterSetting::Select(selection) => self.sets.selection = selection,
        }
    }

    // Chooses what SD or AD names.
    fn set_font(&mut self, selection: Selection, setting: FontSetting)
        requires { IsFontSetting setting }
        ensures { self.new ≡ fonts_with selection setting self.old }
    {
        self.sets = sets_with(selection, setting.set, self.sets);
        match selection {
            Selection::Standard => self.standard_font = self.standard_font.with(setting),
            Selection::Alternate => self.alternate_font = self.alternate_font.with(setting),
        }
    }

    /// A text was written, whose bytes 14 and 15 select a set.
    pub fn pass_text(&mut self, text: &[u8])
        ensures { self.new ≡ characters_after self.old text.now }
    {
        self.sets = self.sets.after(text);
    }

    /// The sets, and which of them is selected.
    pub fn sets(&self) -> Sets
        ensures { result ≡ self.now.sets }
    {
        self.sets
    }

    /// The font of the set that is selected.
    pub fn font(&self) -> Font
        ensures value { result ≡ selected_font self.now }
        ensures sound { IsFont result }
    {
        match self.sets.selection {
            Selection::Standard => self.standard_font,
            Selection::Alternate => self.alternate_font,
        }
    }
}

// The sets, with another one if one is named.
fn sets_with(selection: Selection, set: Option<CharacterSet>, sets: Sets) -> Sets
    ensures { result ≡ sets_with selection set sets }
{
    match (selection, set) {
        (_, None) => sets,
        (Selection::Standard, Some(standard)) => Sets { standard, ..sets },
        (Selection::Alternate, Some(alternate)) => Sets { alternate, ..sets },
    }
}
