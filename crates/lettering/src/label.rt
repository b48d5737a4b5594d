//! Labels.
ghost use Rattle.std.specs.Prelude.{◌≡◌, ◌≤◌, ◌*◌, ◌^◌, length, pos, nat_abs, ◌*ℤ◌};
ghost use Rattle.directions.specs.Bounds.{IsWithin};
ghost use Rattle.lettering.specs.Labels.{styled_label_strokes, styled_label_end, margin_move};

use crate::checked::Lettering;
use crate::sections::last_cell;
use crate::strokes::Strokes;
use crate::written::Written;
use character_sets::Signs;
use exact::Spot;

/// Where a label ends, from its start, in grains.
#[derive(Clone, Copy, Debug)]
pub struct LabelEnds {
    /// How far it leaves the pen.
    pub pen: Spot,
    /// How far it moves the left margin, at which `CP;` begins the next line.
    pub margin: Spot,
}

impl Lettering {
    /// The strokes of a label of at most 2^26 signs (HP-GL/2: LB): letter by letter, from its start on.
    pub fn strokes<'a>(&'a self, signs: Signs<'a>) -> Strokes<'a>
        requires { length signs ≤ 2 ^ 26 }
        ensures { result ≡ styled_label_strokes self.now.style signs.entry }
    {
        Strokes::of(Written::new(self, signs))
    }

    /// Where a label ends.
    pub fn ends(&self, signs: Signs<'_>) -> LabelEnds
        requires { length signs ≤ 2 ^ 26 }
        ensures pen { result.pen ≡ styled_label_end self.now.style signs.entry }
        ensures margin { result.margin ≡ margin_move self.now.style signs.entry }
        ensures pen_within { IsWithin (2 ^ 95) result.pen }
        ensures margin_within { IsWithin (2 ^ 95) result.margin }
    {
        let cell = last_cell(signs);
        let halves = 2 - self.origin_column();
        let lines = whole_lines(cell.line);
        LabelEnds {
            pen: self.offset(half_columns(halves, cell.column), lines),
            margin: self.offset(0, lines),
        }
    }

    /// How far a label moves the left margin, in grains.
    pub fn margin_move(&self, signs: Signs<'_>) -> Spot
        requires { length signs ≤ 2 ^ 26 }
        ensures value { result ≡ margin_move self.now.style signs.entry }
        ensures within { IsWithin (2 ^ 95) result }
    {
        let cell = last_cell(signs);
        self.offset(0, whole_lines(cell.line))
    }
}

// Halves of columns in millionths of columns.
pub(crate) fn half_columns(halves: u8, columns: i64) -> i64
    requires halves_in { halves ≤ 2 }
    requires columns_in { nat_abs columns ≤ 2 ^ 29 }
    ensures value { result ≡ pos (500000 * halves) *ℤ columns }
    ensures most { nat_abs result ≤ 2 ^ 52 }
{
    500_000 * i64::from(halves) * columns
}

// Lines in millionths of lines.
fn whole_lines(lines: u64) -> i64
    requires { lines ≤ 2 ^ 26 }
    ensures value { result ≡ pos (1000000 * lines) }
    ensures most { nat_abs result ≤ 2 ^ 52 }
{
    (1_000_000 * lines) as i64
}
