//! Where letters are: their lower left corners, in millionths of twelfths of a letter's width and of
//! eighteenths of its height.
ghost use Rattle.std.specs.Prelude.{◌≡◌, ◌≤◌, ◌^◌, ◌%◌, nat_abs};
ghost use Rattle.directions.specs.Bounds.{IsWithin};
ghost use Rattle.lettering.specs.Bounds.{most_step};
ghost use Rattle.lettering.specs.Letters.{origin_of, origin_column, origin_row, gap, letters_beside};
ghost use Rattle.lettering.specs.Letters.{shift, letter_corner};

use crate::cell::Cell;
use crate::checked::Lettering;
use crate::share::stepped;
use crate::style::Path;
use exact::Spot;

const MILLION: i128 = 1_000_000;

impl Lettering {
    // The lower left corner of a letter, in a cell and in a section of `letters` letters.
    pub(crate) fn corner(&self, cell: Cell, letters: i64) -> Spot
        requires column_in { nat_abs cell.column ≤ 2 ^ 32 }
        requires line_in { cell.line ≤ 2 ^ 32 }
        requires letters_in { nat_abs letters ≤ 2 ^ 31 }
        ensures value { result ≡ letter_corner self.now.style cell letters }
        ensures within { IsWithin (2 ^ 65) result }
    {
        let steps = self.steps(cell.column, cell.line as i64);
        let shift = self.shift(letters);
        Spot {
            x: stepped(18, self.style.step_x, steps.x) - shift.x,
            y: stepped(36, self.line_step(), steps.y) - shift.y,
        }
    }

    // How far a section of `letters` letters begins left of its start and below it.
    fn shift(&self, letters: i64) -> Spot
        requires { nat_abs letters ≤ 2 ^ 31 }
        ensures value { result ≡ shift self.now.style letters }
        ensures within { IsWithin (2 ^ 64) result }
    {
        if self.origin() == 1 {
            return Spot { x: 0, y: 0 };
        }
        let column = self.origin_column();
        let row = self.origin_row();
        Spot {
            x: beside(column, self.style.step_x, letters) + self.gap(6, column),
            y: 9 * MILLION * i128::from(row) + self.gap(9, row),
        }
    }

    // What a gap of `parts` parts adds, by the column or the row of the origin.
    fn gap(&self, parts: u8, position: u8) -> i128
        requires parts_in { parts ≤ 9 }
        requires position_in { position ≤ 2 }
        ensures value { result ≡ gap self.now.style parts position }
        ensures most { nat_abs result ≤ 9000000 }
    {
        if self.origin() > 10 {
            MILLION * i128::from(parts) * (i128::from(position) - 1)
        } else {
            0
        }
    }

    // The column of the origin: 0 if the label is right of its start, 2 if it is left of it.
    pub(crate) fn origin_column(&self) -> u8
        ensures value { result ≡ origin_column self.now.style }
        ensures most { result ≤ 2 }
    {
        (self.origin() % 10 - 1) / 3
    }

    // The row of the origin: 0 if the label is above its start, 2 if it is below it.
    fn origin_row(&self) -> u8
        ensures value { result ≡ origin_row self.now.style }
        ensures most { result ≤ 2 }
    {
        (self.origin() % 10 - 1) % 3
    }

    // LO's number, which counts only for the path to the right.
    fn origin(&self) -> u8
        ensures value { result ≡ origin_of self.now.style }
        ensures digit { 1 ≤ result % 10 }
        ensures most { result ≤ 19 }
    {
        match self.style.path {
            Path::Right => self.style.origin,
            Path::Down | Path::Left | Path::Up => 1,
        }
    }
}

// How far `letters` letters begin left of their start, by the column of the origin and their step.
fn beside(column: u8, step: i64, letters: i64) -> i128
    requires column_in { column ≤ 2 }
    requires step_in { nat_abs step ≤ most_step }
    requires letters_in { nat_abs letters ≤ 2 ^ 31 }
    ensures value { result ≡ letters_beside column step letters }
    ensures most { nat_abs result ≤ 2 ^ 63 }
{
    let half = stepped(9, step, i128::from(letters) - 1) + 6 * MILLION;
    i128::from(column) * half
}
