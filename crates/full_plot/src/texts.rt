//! Labels, symbols, and moves by columns and lines.
ghost use Rattle.std.specs.Prelude.{◌≡◌, ◌≤◌, ◌^◌, length, nat_abs, neg_ℤ, IfSome, IfOk, Some};
ghost use Rattle.directions.specs.Bounds.{IsWithin};
ghost use Rattle.full_settings.specs.CharacterMoves.{IsCharacterMove};
ghost use Rattle.full_settings.specs.LetterParameters.{IsLetterSetting};
ghost use Rattle.character_sets.specs.Texts.{signs};
ghost use Rattle.lettering.specs.Labels.{margin_move};
ghost use Rattle.hpgl_plot.specs.Machine as core;
ghost use Rattle.full_plot.specs.Items.{letters_steps};
ghost use Rattle.full_plot.specs.Machine.{seen, full_step, run, Runs, Letter, marked, printed};
ghost use Rattle.full_plot.specs.Texts as texts;
ghost use Rattle.full_plot.specs.Worlds.{with_core};

use crate::bold::ink_letters;
use crate::core_labels::is_as_in_core;
use crate::ink::{margin_by, moved_by};
use crate::plotter::FullPlotter;
use character_sets::{Encoding, Sets, Signs};
use directions::Turn;
use exact::Spot;
use full_settings::{CharacterMove, LetterSetting};
use hpgl_plot::{Plotter, Stop};
use lettering::{Lettering, is_core_text};
use plot_settings::Rotation;

// The most bytes of a label, 2^26.
const LONGEST: usize = 67_108_864;

impl FullPlotter {
    /// LB: writes a text from the pen's place on.
    pub fn write(&mut self, text: &[u8]) -> Result<(), Stop>
        ensures { Runs (texts.written (seen self.old) text.now) (seen self.new) result }
    {
        let lettering = self.lettering();
        let reading = self.reading();
        let is_bold = self.characters.font().is_bold;
        self.margin = write_label(
            &mut self.plotter,
            &lettering,
            is_bold,
            self.margin,
            reading,
            text,
        )?;
        self.characters.pass_text(text);
        Ok(())
    }

    /// PB: writes the text that BL keeps, whose bytes count as work.
    pub fn print(&mut self) -> Result<(), Stop>
        ensures { Runs (printed (seen self.old)) (seen self.new) result }
    {
        let lettering = self.lettering();
        let reading = self.reading();
        let text = self.writing.text();
        let amount = text.len();
        let is_bold = self.characters.font().is_bold;
        self.margin = write_label(
            &mut self.plotter,
            &lettering,
            is_bold,
            self.margin,
            reading,
            text,
        )?;
        self.characters.pass_text(text);
        self.work(amount);
        Ok(())
    }

    /// CP: puts the pen by columns and lines, or to the next line at the left margin.
    pub fn place(&mut self, way: CharacterMove) -> Result<(), Stop>
        requires { IsCharacterMove way }
        ensures { Runs (texts.moved_by_characters (seen self.old) way) (seen self.new) result }
    {
        let lettering = self.lettering();
        match way {
            CharacterMove::ToMargin => {
                let next = margin_by(self.margin, lettering.offset(0, 1_000_000));
                self.put_with_margin(next, next)
            }
            CharacterMove::By(steps) => {
                let down = downward(steps.y);
                let margin = margin_by(self.margin, lettering.offset(0, down));
                let offset = lettering.offset(steps.x, down);
                self.put_with_margin(moved_by(self.plotter.state.place, offset), margin)
            }
        }
    }

    // Puts the pen at a place, and the left margin at another.
    fn put_with_margin(&mut self, place: Spot, margin: Spot) -> Result<(), Stop>
        requires { IsWithin (2 ^ 96) margin }
        ensures { Runs (texts.with_margin margin (with_core (seen self.old)
            (texts.put (seen self.old).core place))) (seen self.new) result }
    {
        self.plotter.put(place)?;
        self.margin = margin;
        Ok(())
    }

    /// Draws the symbol of SM at the pen, if there is one, and polygon mode is off.
    #[inline(always)]
    pub fn mark(&mut self) -> Result<(), Stop>
        ensures { Runs (marked (seen self.old)) (seen self.new) result }
    {
        if self.context.in_polygon {
            return Ok(());
        }
        match self.writing.symbol() {
            Some(symbol) => self.write_symbol(symbol),
            None => Ok(()),
        }
    }

    fn write_symbol(&mut self, symbol: u8) -> Result<(), Stop>
        ensures { Runs (texts.marked_by (Some symbol) (seen self.old)) (seen self.new) result }
    {
        let lettering = self.lettering().centred();
        let text = [symbol];
        let signs = self.reading().signs(&text);
        let is_bold = self.characters.font().is_bold;
        ink_letters(&mut self.plotter, lettering.strokes(signs), is_bold)
    }

    /// Sets how letters are written, as an instruction asks.
    pub fn letter(&mut self, setting: LetterSetting)
        requires { IsLetterSetting setting }
        ensures { full_step (seen self.old) (Letter setting) ≡ Some (seen self.new) }
    {
        self.writing.set_letters(setting);
        if sets_margin(setting) {
            self.margin = self.plotter.state.place;
        }
    }

    /// The same, if the numbers of the instruction are not wrong.
    pub fn letter_if(&mut self, setting: Option<LetterSetting>)
        requires { IfSome setting IsLetterSetting }
        ensures { run (seen self.old) (letters_steps setting) ≡ Some (seen self.new) }
    {
        if let Some(setting) = setting {
            self.letter(setting);
        }
    }

    /// How letters are written now.
    pub(crate) fn lettering(&self) -> Lettering
        ensures { result.style ≡ texts.style_of (seen self.now) }
    {
        let state = &self.plotter.state;
        let turn = turn_by(state.frame.rotation);
        let font = self.characters.font();
        self.writing
            .lettering(font, state.size, &state.frame.points, turn)
    }

    /// How texts are read now.
    pub(crate) fn reading(&self) -> Reading
        ensures encoding { result.encoding ≡ (seen self.now).encoding }
        ensures sets { result.sets ≡ (seen self.now).characters.sets }
    {
        Reading {
            encoding: self.encoding,
            sets: self.characters.sets(),
        }
    }
}

/// How texts are read: as the user says, or by the sets that the plot has chosen.
#[derive(Clone, Copy)]
pub(crate) struct Reading {
    encoding: Encoding,
    sets: Sets,
}

impl Reading {
    /// The signs of a text.
    pub(crate) fn signs<'a>(self, text: &'a [u8]) -> Signs<'a>
        ensures value { result ≡ signs self.encoding self.sets text.now }
        ensures few { length result ≤ length text.now }
    {
        self.encoding.signs(self.sets, text)
    }
}

// Writes a text from the pen's place on, and gives the left margin after it.
fn write_label(
    plotter: &mut Plotter,
    lettering: &Lettering,
    is_bold: bool,
    margin: Spot,
    reading: Reading,
    text: &[u8],
) -> Result<Spot, Stop>
    requires { IsWithin (2 ^ 96) margin }
    ensures within { IfOk result (IsWithin (2 ^ 96)) }
    ensures margin { IfOk result (λ after. after ≡ texts.margin_by margin
        (margin_move lettering.now.style (signs reading.encoding reading.sets text.now))) }
    ensures runs { core.Runs
        (texts.if_short text.now (texts.label_by is_bold lettering.now.style (core.seen plotter.old)
        (signs reading.encoding reading.sets text.now))) (core.seen plotter.new) result }
{
    if text.len() > LONGEST {
        return Err(Stop::OffRange);
    }
    let moved = write_text(plotter, lettering, is_bold, reading, text)?;
    Ok(margin_by(margin, moved))
}

// Writes a text, puts the pen at its end, and gives how far it moves the left margin. Core is faster at what it can
// write.
fn write_text(
    plotter: &mut Plotter,
    lettering: &Lettering,
    is_bold: bool,
    reading: Reading,
    text: &[u8],
) -> Result<Spot, Stop>
    requires { length text.now ≤ 2 ^ 26 }
    ensures within { IfOk result (IsWithin (2 ^ 95)) }
    ensures moved { IfOk result (λ moved. moved
        ≡ margin_move lettering.now.style (signs reading.encoding reading.sets text.now)) }
    ensures runs { core.Runs
        (texts.label_by is_bold lettering.now.style (core.seen plotter.old)
        (signs reading.encoding reading.sets text.now))
        (core.seen plotter.new) result }
{
    if is_bold {
        return write_in_style(plotter, lettering, true, reading.signs(text));
    }
    let is_usual = is_as_in_core(&lettering.style, &plotter.state);
    if is_usual && is_core_text(reading.encoding, reading.sets, text) {
        plotter.write(text)?;
        Ok(lettering.margin_move(reading.signs(text)))
    } else {
        write_in_style(plotter, lettering, false, reading.signs(text))
    }
}

// The same in any style, by the signs of a text.
fn write_in_style(
    plotter: &mut Plotter,
    lettering: &Lettering,
    is_bold: bool,
    signs: Signs<'_>,
) -> Result<Spot, Stop>
    requires { length signs ≤ 2 ^ 26 }
    ensures within { IfOk result (IsWithin (2 ^ 95)) }
    ensures moved { IfOk result (λ moved. moved ≡ margin_move lettering.now.style signs.entry) }
    ensures runs { core.Runs
        (texts.label_by is_bold lettering.now.style (core.seen plotter.old) signs.entry) (core.seen plotter.new) result }
{
    let start = plotter.state.place;
    let ends = lettering.ends(signs.again());
    ink_letters(plotter, lettering.strokes(signs), is_bold)?;
    plotter.put(moved_by(start, ends.pen))?;
    Ok(ends.margin)
}

// Lines up as lines down, in millionths.
fn downward(lines: i64) -> i64
    requires { nat_abs lines ≤ 2 ^ 52 }
    ensures value { result ≡ neg_ℤ lines }
    ensures most { nat_abs result ≤ 2 ^ 52 }
{
    -lines
}

// Whether the left margin is then where the pen is: by DI, DR, DV and LO.
fn sets_margin(setting: LetterSetting) -> bool
    ensures { result ≡ texts.sets_margin setting }
{
    match setting {
        LetterSetting::Direction(_) | LetterSetting::RelativeDirection(_) => true,
        LetterSetting::Path(..) | LetterSetting::Origin(_) => true,
        _ => false,
    }
}

/// RO as a turn of directions.
pub fn turn_by(rotation: Rotation) -> Turn
    ensures { result ≡ texts.turn_by rotation }
{
    match rotation {
        Rotation::None => Turn::None,
        Rotation::Quarter => Turn::Quarter,
        Rotation::Half => Turn::Half,
        Rotation::ThreeQuarters => Turn::ThreeQuarters,
    }
}
