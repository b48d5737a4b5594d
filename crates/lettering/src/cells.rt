//! Offsets of cells.
ghost use Rattle.std.specs.Prelude.{◌≡◌, ◌≤◌, ◌*◌, ◌^◌, ◌*ℤ◌, max, nat_abs, pos};
ghost use Rattle.directions.specs.Bounds.{IsWithin};
ghost use Rattle.stick_font.specs.Labels as labels;
ghost use Rattle.lettering.specs.Bounds.{most_step};
ghost use Rattle.lettering.specs.Cells.{cell_offset};
ghost use Rattle.lettering.specs.Styles.{steps_to, lines_up};

use crate::checked::Lettering;
use crate::share::{share, stepped};
use crate::style::{LineFeed, Path};
use exact::Spot;

const MILLION: u64 = 1_000_000;

// The step to the next letter and to the next line, if ES asks for no other.
const USUAL_STEP: i64 = 1_000_000;

impl Lettering {
    /// How far the cell is that is `columns` columns and `lines` lines on, in grains. Both are in millionths,
    /// each within 2^52 of 0 (HP-GL/2: CP, whose lines count upward).
    pub fn offset(&self, columns: i64, lines: i64) -> Spot
        requires columns_in { nat_abs columns ≤ 2 ^ 52 }
        requires lines_in { nat_abs lines ≤ 2 ^ 52 }
        ensures value { result ≡ cell_offset self.now.style columns lines }
        ensures within { IsWithin (2 ^ 95) result }
    {
        let style = &self.style;
        let steps = self.steps(columns, lines);
        style.direction.swung(Spot {
            x: distance(18, style.step_x, steps.x, style.width, 12),
            y: distance(36, self.line_step(), steps.y, style.height, 18),
        })
    }

    // The step to the next line up, in millionths of two heights.
    pub(crate) fn line_step(&self) -> i64
        ensures value { result ≡ self.now.style.step_y }
        ensures most { nat_abs result ≤ most_step }
    {
        self.style.step_y
    }

    // The cell that is `columns` columns and `lines` lines on, as steps to the right and steps up.
    pub(crate) fn steps(&self, columns: i64, lines: i64) -> Spot
        requires columns_in { nat_abs columns ≤ 2 ^ 52 }
        requires lines_in { nat_abs lines ≤ 2 ^ 52 }
        ensures value { result ≡ steps_to self.now.style columns lines }
        ensures x_in { nat_abs result.x ≤ max (nat_abs columns) (nat_abs lines) }
        ensures y_in { nat_abs result.y ≤ max (nat_abs columns) (nat_abs lines) }
    {
        let along = i128::from(columns);
        let up = lines_up(self.style.line_feed, lines);
        match self.style.path {
            Path::Right => Spot { x: along, y: up },
            Path::Down => Spot { x: up, y: -along },
            Path::Left => Spot { x: -along, y: -up },
            Path::Up => Spot { x: -up, y: along },
        }
    }
}

// How far `steps` millionths of steps are, each of `parts` times `step` millionths of parts of a size, of which it has
// `whole`.
#[inline]
fn distance(parts: u8, step: i64, steps: i128, size: i64, whole: u64) -> i128
    requires parts_in { parts ≤ 36 }
    requires step_in { nat_abs step ≤ most_step }
    requires steps_in { nat_abs steps ≤ 2 ^ 52 }
    requires size_in { nat_abs size ≤ 2 ^ 40 }
    requires whole_above { 12 ≤ whole }
    requires whole_in { whole ≤ 18 }
    ensures value { result ≡ labels.share (pos parts *ℤ step *ℤ steps) size (whole * 10 ^ 12) }
    ensures most { nat_abs result ≤ 2 ^ 84 }
{
    if step == USUAL_STEP {
        share(i128::from(parts) * steps, size, whole * MILLION)
    } else {
        let count = stepped(parts, step, steps);
        share(count, size, whole * MILLION * MILLION)
    }
}

// How far up the line is that is `lines` lines on, if the path leads to the right.
fn lines_up(line_feed: LineFeed, lines: i64) -> i128
    ensures value { result ≡ lines_up line_feed lines }
    ensures most { nat_abs result ≤ nat_abs lines }
{
    match line_feed {
        LineFeed::Normal => -i128::from(lines),
        LineFeed::Reverse => i128::from(lines),
    }
}
