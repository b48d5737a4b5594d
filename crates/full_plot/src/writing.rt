//! What is set for labels.
ghost use Rattle.std.specs.Prelude.{◌≡◌, IfOk};
ghost use Rattle.plot_frame.specs.Bounds.{IsPoints};
ghost use Rattle.full_settings.specs.Characters.{IsFont};
ghost use Rattle.full_settings.specs.LetterParameters.{IsLetterSetting};
ghost use Rattle.full_settings.specs.Letters.{letters_with, style_in};
ghost use Rattle.full_settings.specs.TickParameters.{IsTickLength};
ghost use Rattle.full_plot.specs.Worlds.{usual_writing};

use directions::Turn;
use full_settings::{Font, LetterSetting, Letters, TickLength};
use lettering::Lettering;
use plot_frame::{Ends, Pair};
use std::alloc::{AllocError, Global};
use std::marker::Model;
use stick_font::CharacterSize;

/// What is set for labels.
#[derive(Drop)]
pub struct Writing {
    // How letters are written.
    letters: Letters,
    // The symbol that is drawn after each move, or none.
    symbol: Option<u8>,
    // The text of the most recent BL.
    text: Vec<u8>,
    ticks: TickLength,
}

impl Model for Writing {
    ghost use Rattle.full_settings.specs.TickParameters.{IsTickLength};
    ghost use Rattle.full_plot.specs.Worlds.{Writing};

    ghost Value = { Writing };

    ghost view = { λ s. record { letters = s.letters; symbol = s.symbol; text = s.text.items; ticks = s.ticks } };

    ghost invariant = { λ s. IsTickLength s.ticks };
}

impl Writing {
    /// What is set at the start, and by IN and DF.
    pub fn usual(alloc: Global) -> Writing
        ensures { result ≡ usual_writing }
    {
        Writing {
            letters: Letters::usual(),
            symbol: None,
            text: Vec::new(alloc),
            ticks: TickLength::usual(),
        }
    }

    /// Sets how letters are written, as an instruction asks.
    pub fn set_letters(&mut self, setting: LetterSetting)
        requires { IsLetterSetting setting }
        ensures { self.new ≡ record self.old { letters = letters_with setting self.old.letters } }
    {
        self.letters.set(setting);
    }

    /// Sets the symbol of SM.
    pub fn set_symbol(&mut self, symbol: Option<u8>)
        ensures { self.new ≡ record self.old { symbol = symbol } }
    {
        self.symbol = symbol;
    }

    /// Keeps the text of a BL.
    pub fn keep(&mut self, text: &[u8]) -> Result<(), AllocError>
        ensures { IfOk result (λ _. self.new ≡ record self.old { text = text.now }) }
    {
        self.text.clear();
        self.text.extend_from_slice(text)
    }

    /// Sets the length of ticks by TL.
    pub fn set_ticks(&mut self, ticks: TickLength)
        requires { IsTickLength ticks }
        ensures { self.new ≡ record self.old { ticks = ticks } }
    {
        self.ticks = ticks;
    }

    /// The symbol of SM.
    pub fn symbol(&self) -> Option<u8>
        ensures { result ≡ self.now.symbol }
    {
        self.symbol
    }

    /// The text of the most recent BL.
    pub fn text(&self) -> &[u8]
        ensures { result.now ≡ self.now.text }
    {
        self.text.as_slice()
    }

    /// The length of ticks.
    pub fn ticks(&self) -> TickLength
        ensures value { result ≡ self.now.ticks }
        ensures sound { IsTickLength result }
    {
        self.ticks
    }

    /// How letters are written, by the font that is selected, by SI's size and by P1 and P2 as they are now,
    /// and turned by RO.
    pub fn lettering(
        &self,
        font: Font,
        size: CharacterSize,
        points: &Pair<Ends>,
        turn: Turn,
    ) -> Lettering
        requires font_in { IsFont font }
        requires points_in { IsPoints points.now }
        ensures { result.style ≡ style_in self.now.letters font size points.now turn }
    {
        self.letters.lettering(font, size, points, turn)
    }
}
