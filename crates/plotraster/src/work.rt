//! What a command line asks for, as work on plots.
ghost use Rattle.std.specs.Prelude.{◌≡◌, ⊤};
ghost use Rattle.plotraster.specs.Choices.{sheet_count, title_of};
ghost use Rattle.plotraster.specs.Endings.{ending_of};

use crate::choices::{of_all_sheets, picture_apart, reading_for};
use crate::endings::{ending_of, fault_of_sync};
use crate::progress::{Progress, Terminal};
use crate::remarks::tell_outcome;
use crate::run::{naming_of, run_task};
use crate::sheets::{draw_sheets, write_sheet};
use command_line::Line;
use conversion::{Drawing, Fault, Outcome, Request, Setup, status};
use delivery::{About, Answer, Ending, Refusal, Sheets, Voice, Work};
use devices::{OverRead, OverWrite};
use picture_job::Reading;
use std::alloc::Global;
use std::fmt::{Display, Formatter};
use std::io::{Read, Write};
use std::path::Path;

/// What a command line asks for, whose progress this terminal shows.
#[derive(Drop)]
pub struct LineWork<'r, 'm, 'a, T: Terminal> {
    pub line: &'r Line<'m, 'a>,
    pub terminal: &'r T,
    pub alloc: Global,
}

/// What writing the output of a plot, or of one of its sheets, answered.
#[derive(Clone, Copy)]
pub struct Written<'r, 'm, 'a> {
    line: &'r Line<'m, 'a>,
    is_sheet: bool,
    outcome: Result<Outcome, Fault>,
}

/// The sheets of a plot that is drawn.
#[derive(Drop)]
pub struct DrawnSheets<'r, 'm, 'a, T: Terminal> {
    line: &'r Line<'m, 'a>,
    terminal: &'r T,
    alloc: Global,
    request: Request<'r>,
    drawing: Drawing,
}

/// Why a plot is not drawn.
#[derive(Clone, Copy)]
pub struct Undrawn(Fault);

impl Display for Undrawn {
    fn fmt<W: std::fmt::Write>(&self, f: &mut Formatter<W>) -> std::fmt::Result {
        let fault = self.0;
        write!(f, "{fault}")
    }
}

impl Refusal for Undrawn {
    fn status(&self) -> u8 {
        status(&self.0)
    }
}

impl<'r, 'm, 'a, T: Terminal> Work for LineWork<'r, 'm, 'a, T> {
    type Answer = Written<'r, 'm, 'a>;

    type Sheets = DrawnSheets<'r, 'm, 'a, T>;

    type Refusal = Undrawn;

    ghost wrote = { λ _ _ _. ⊤ };

    fn has_sheets_apart(&self) -> bool {
        picture_apart(self.line).is_some()
    }

    fn write<R: Read + Drop, W: Write + Drop>(
        &self,
        about: About<'_>,
        file: &str,
        plot: R,
        to: W,
    ) -> (W, Written<'r, 'm, 'a>) {
        let line = self.line;
        let mut progress = Progress::new(self.terminal, about, line.progress);
        let mut source = OverRead::new(plot);
        let (sink, outcome) = run_task(
            self.alloc,
            setup_of(line, reading_for(line)),
            &line.task,
            naming_of(title_of(file)),
            &mut source,
            OverWrite::new(to),
            &mut progress,
        );
        progress.end();
        let answer = Written {
            line,
            is_sheet: false,
            outcome,
        };
        (sink.into_inner(), answer)
    }

    fn draw<R: Read + Drop>(&self, plot: R) -> Result<DrawnSheets<'r, 'm, 'a, T>, Undrawn> {
        let line = self.line;
        // Only a picture has sheets apart.
        let Some(picture) = picture_apart(line) else {
            return Err(Undrawn(Fault::Resolution));
        };
        let setup = setup_of(line, of_all_sheets(line.reading));
        let request = match Request::new(setup, picture, naming_of("")) {
            Ok(request) => request,
            Err(fault) => return Err(Undrawn(fault)),
        };
        let mut source = OverRead::new(plot);
        match draw_sheets(self.alloc, &request, &mut source) {
            Ok(drawing) => Ok(DrawnSheets {
                line,
                terminal: self.terminal,
                alloc: self.alloc,
                request,
                drawing,
            }),
            Err(fault) => Err(Undrawn(fault)),
        }
    }
}

impl<'r, 'm, 'a, T: Terminal> Sheets for DrawnSheets<'r, 'm, 'a, T> {
    type Answer = Written<'r, 'm, 'a>;

    ghost sheet_count = { λ it. sheet_count it.drawing.lines.sheets };

    ghost wrote = { λ _ _ _. ⊤ };

    fn count(&self) -> u32 {
        sheet_count(self.drawing.sheets())
    }

    fn write<W: Write + Drop>(
        &self,
        about: About<'_>,
        number: u32,
        to: W,
    ) -> (W, Written<'r, 'm, 'a>) {
        let line = self.line;
        let mut progress = Progress::new(self.terminal, about, line.progress);
        let (sink, outcome) = write_sheet(
            self.alloc,
            &self.request,
            &self.drawing,
            number,
            OverWrite::new(to),
            &mut progress,
        );
        progress.end();
        let answer = Written {
            line,
            is_sheet: true,
            outcome,
        };
        (sink.into_inner(), answer)
    }
}

// How a plot is read and drawn by a command line, in this reading.
fn setup_of<'r>(line: &'r Line<'_, '_>, reading: Reading) -> Setup<'r>
    ensures reading { result.reading ≡ reading }
    ensures carousel { result.carousel.now ≡ line.now.carousel }
    ensures choice { result.choice ≡ line.now.choice }
    ensures turn { result.turn ≡ line.now.turn }
    ensures counts { result.counts ≡ line.now.verbose }
{
    Setup {
        reading,
        carousel: &line.carousel,
        choice: line.choice,
        turn: line.turn,
        counts: line.verbose,
    }
}

// How many sheets there are: more than there can be strokes are none.
fn sheet_count(sheets: usize) -> u32
    ensures { result ≡ sheet_count sheets }
{
    u32::try_from(sheets).unwrap_or(u32::MAX)
}

impl<'r, 'm, 'a> Answer for Written<'r, 'm, 'a> {
    ghost ends = { λ it. ending_of it.outcome };

    fn ending(&self) -> Ending {
        ending_of(&self.outcome)
    }

    fn unstored(&self) -> Written<'r, 'm, 'a> {
        Written {
            line: self.line,
            is_sheet: self.is_sheet,
            outcome: Err(fault_of_sync(&self.line.task)),
        }
    }

    fn tell<V: Voice>(&self, voice: &mut V, about: About<'_>) {
        match &self.outcome {
            Ok(outcome) => tell_outcome(voice, self.line, about, self.is_sheet, outcome),
            Err(fault) => {
                let fault = *fault;
                voice.refuse(status(&fault), &Failed { about, fault });
            }
        }
    }
}

// Why a plot has no output.
#[derive(Clone, Copy)]
struct Failed<'a> {
    about: About<'a>,
    fault: Fault,
}

impl Display for Failed<'_> {
    fn fmt<W: std::fmt::Write>(&self, f: &mut Formatter<W>) -> std::fmt::Result {
        let (about, fault) = (self.about, self.fault);
        write!(f, "{about}{fault}")
    }
}

/// The title of a plot's document: the name of its file.
fn title_of(file: &str) -> &str
    ensures { result.now ≡ title_of file.now }
{
    Path::new(file).file_name().unwrap_or("")
}
