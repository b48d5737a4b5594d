//! Contents that end as is said, and plots with so many sheets.
ghost use Rattle.std.specs.Prelude.{[], ⊤};
ghost use Rattle.delivery.specs.declared.ending.Ending.TheVariants as ended;
ghost use Rattle.tests_program.specs.declared.delivered_work.Told.TheVariants as told;

use delivery::{About, Answer, Content, Ending, Refusal, Sheets, Voice, Work};
use std::fmt::{Display, Formatter, Result as Written};
use std::io::{Read, Write};

/// How each writing ends.
#[derive(Clone, Copy)]
pub(crate) enum Told {
    Whole,
    Kept,
    Lost,
}

impl Content for Told {
    type Answer = Told;

    ghost item = { λ _. record { file = []; sheet = 0 } };

    ghost wrote = { λ _ _. ⊤ };

    fn write<W: Write + Drop>(self, to: W) -> (W, Told) {
        (to, self)
    }
}

impl Answer for Told {
    ghost ends = { elim [ told.Whole ↦ ended.Whole | told.Kept ↦ ended.Kept 3 | told.Lost ↦ ended.Lost 3 ] };

    fn ending(&self) -> Ending {
        match self {
            Told::Whole => Ending::Whole,
            Told::Kept => Ending::Kept(3),
            Told::Lost => Ending::Lost(3),
        }
    }

    fn unstored(&self) -> Told {
        match self {
            Told::Whole | Told::Kept => Told::Kept,
            Told::Lost => Told::Lost,
        }
    }

    fn tell<V: Voice>(&self, voice: &mut V, about: About<'_>) {
        match self {
            Told::Whole => voice.remark(&about),
            Told::Kept | Told::Lost => voice.refuse(3, &about),
        }
    }
}

/// A plot with so many sheets, of which each writing ends so, but that of one sheet is lost.
#[derive(Clone, Copy)]
pub(crate) struct Plot {
    pub(crate) sheets: u32,
    pub(crate) told: Told,
    pub(crate) lost: u32,
}

/// Why a plot without sheets is not drawn.
#[derive(Clone, Copy)]
pub(crate) struct NoSheets;

impl Display for NoSheets {
    fn fmt<W: std::fmt::Write>(&self, f: &mut Formatter<W>) -> Written {
        write!(f, "no sheets")
    }
}

impl Refusal for NoSheets {
    fn status(&self) -> u8 {
        1
    }
}

impl Sheets for Plot {
    type Answer = Told;

    ghost sheet_count = { λ plot. plot.sheets };

    ghost wrote = { λ _ _ _. ⊤ };

    fn count(&self) -> u32 {
        self.sheets
    }

    fn write<W: Write + Drop>(&self, _about: About<'_>, number: u32, to: W) -> (W, Told) {
        if number == self.lost {
            (to, Told::Lost)
        } else {
            (to, self.told)
        }
    }
}

impl Work for Plot {
    type Answer = Told;

    type Sheets = Plot;

    type Refusal = NoSheets;

    ghost wrote = { λ _ _ _. ⊤ };

    fn has_sheets_apart(&self) -> bool {
        self.sheets != 1
    }

    fn write<R: Read + Drop, W: Write + Drop>(
        &self,
        _about: About<'_>,
        _file: &str,
        _plot: R,
        to: W,
    ) -> (W, Told) {
        (to, self.told)
    }

    fn draw<R: Read + Drop>(&self, _plot: R) -> Result<Plot, NoSheets> {
        if self.sheets == 0 {
            Err(NoSheets)
        } else {
            Ok(*self)
        }
    }
}
