//! Plots that are drawn once, and written sheet by sheet.
ghost use Rattle.std.specs.Prelude.{◌≡◌, ◌<◌, ℕ, List};
ghost use Rattle.delivery.specs.declared.ending.Ending.{Ending};

use crate::about::About;
use crate::ending::{Answer, Content};
use std::fmt::Display;
use std::io::{Read, Write};

/// Why a plot is not drawn.
pub trait Refusal: Display {
    /// The exit status.
    fn status(&self) -> u8
        ensures { 0 < result };
}

/// The sheets of a plot that is drawn.
pub trait Sheets {
    /// What writing a sheet answers.
    type Answer: Answer + Drop;

    /// How many sheets there are.
    ghost sheet_count: { Self → ℕ };

    /// How many sheets there are.
    fn count(&self) -> u32
        ensures { result ≡ sheet_count self.now };

    /// That the sheet of this number was written, and how that ended.
    ghost wrote: { Self → ℕ → Ending → Type 0 };

    /// Writes a sheet, counted from 1, about which messages say this.
    fn write<W: Write + Drop>(&self, about: About<'_>, number: u32, to: W) -> (W, Self::Answer)
        ensures { wrote self.now number (Self.Answer.ends result.1) };
}

/// What is to be done with a plot.
pub trait Work {
    /// What writing the output of a plot answers.
    type Answer: Answer + Drop;

    /// The sheets of a plot that is drawn.
    type Sheets: Sheets + Drop;

    /// Why a plot is not drawn.
    type Refusal: Refusal + Drop;

    /// Whether each sheet is to have a file of its own.
    fn has_sheets_apart(&self) -> bool;

    /// That the output of the plot of this file was written, and how that ended.
    ghost wrote: { Self → List ℕ → Ending → Type 0 };

    /// Reads a plot, whose file has this path, and writes its output, about which messages say this.
    fn write<R: Read + Drop, W: Write + Drop>(
        &self,
        about: About<'_>,
        file: &str,
        plot: R,
        to: W,
    ) -> (W, Self::Answer)
        ensures { wrote self.now file.now (Self.Answer.ends result.1) };

    /// Reads a plot and draws its sheets.
    fn draw<R: Read + Drop>(&self, plot: R) -> Result<Self::Sheets, Self::Refusal>;
}

/// The output of a plot.
#[derive(Drop)]
pub struct PlotOf<'a, W: Work, R: Read> {
    pub work: &'a W,
    pub about: About<'a>,
    pub file: &'a str,
    pub plot: R,
}

impl<W: Work, R: Read + Drop> Content for PlotOf<'_, W, R> {
    type Answer = W::Answer;

    ghost item = { λ it. record { file = it.file.now; sheet = 0 } };

    ghost wrote = { λ it ending. W.wrote it.work.now it.file.now ending };

    fn write<T: Write + Drop>(self, to: T) -> (T, W::Answer) {
        let PlotOf {
            work,
            about,
            file,
            plot,
        } = self;
        work.write(about, file, plot, to)
    }
}

/// A sheet, counted from 1, of the plot of this file.
#[derive(Drop)]
pub struct SheetOf<'a, S: Sheets> {
    pub sheets: &'a S,
    pub about: About<'a>,
    pub file: &'a str,
    pub number: u32,
}

impl<S: Sheets> Content for SheetOf<'_, S> {
    type Answer = S::Answer;

    ghost item = { λ it. record { file = it.file.now; sheet = it.number } };

    ghost wrote = { λ it ending. S.wrote it.sheets.now it.number ending };

    fn write<T: Write + Drop>(self, to: T) -> (T, S::Answer) {
        let SheetOf {
            sheets,
            about,
            number,
            ..
        } = self;
        sheets.write(about, number, to)
    }
}
