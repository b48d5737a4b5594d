//! The strokes of a letter.
ghost use Rattle.std.specs.Prelude.{◌≡◌, ◌<◌, ◌≤◌, ◌*◌, ◌^◌, pos, nat_abs, ◌*ℤ◌, slice_get, IfSome};
ghost use Rattle.directions.specs.Bounds.{IsWithin};
ghost use Rattle.lettering.specs.Bounds.{IsNear, IsStrokeWithin};
ghost use Rattle.stick_font.specs.Labels as labels;
ghost use Rattle.lettering.specs.Letters.{on_grid, letter_point, letter_stroke, letter_strokes, centred};

use crate::checked::Lettering;
use crate::share::share;
use crate::style::{LineFeed, Path, Style};
use directions::Turn;
use exact::Spot;
use full_font::{GlyphStroke, glyph};

// The parts of a width and of a height in which points are measured: millionths of twelfths and of
// eighteenths.
pub(crate) const WIDTH_PARTS: u64 = 12_000_000;

pub(crate) const HEIGHT_PARTS: u64 = 18_000_000;

// How far apart the columns and the rows of the grid are, in twelfths of a width and in eighteenths of a
// height.
pub(crate) const STEP: i64 = 3;

impl Lettering {
    /// The same style, with letters that are centred at their start, whatever DV and LO say: the path to the right, and
    /// LO 5. So are symbols (HP-GL/2: SM).
    pub fn centred(&self) -> Lettering
        ensures { result.style ≡ centred self.now.style }
    {
        Lettering {
            style: Style {
                path: Path::Right,
                line_feed: LineFeed::Normal,
                origin: 5,
                ..self.style
            },
        }
    }

    // Stroke `k` of the character with this code point, or `None` if `k` is past its last, by the letter's
    // corner: the offsets of its two ends from the label's start, in grains. Strokes are numbered from 0.
    // If it is near, it is faster: `near_turn` tells that once for all strokes of a letter.
    #[inline(always)]
    pub(crate) fn stroke(
        &self,
        corner: Spot,
        code_point: u32,
        k: usize,
        near: Option<Turn>,
    ) -> Option<(Spot, Spot)>
        requires within { IsWithin (2 ^ 65) corner }
        requires near { IfSome near (IsNear self.now.style corner) }
        ensures value { result ≡ slice_get (letter_strokes self.now.style corner code_point) k }
        ensures within { IfSome result IsStrokeWithin }
        ensures few { IfSome result (λ _. k < 15) }
    {
        match glyph(code_point, k) {
            Some(stroke) => Some(self.placed(corner, stroke, near)),
            None => None,
        }
    }

    // A stroke of a letter.
    #[inline(always)]
    fn placed(&self, corner: Spot, stroke: GlyphStroke, near: Option<Turn>) -> (Spot, Spot)
        requires within { IsWithin (2 ^ 65) corner }
        requires near { IfSome near (IsNear self.now.style corner) }
        ensures value { result ≡ letter_stroke self.now.style corner stroke }
        ensures within { IsStrokeWithin result }
    {
        match near {
            Some(turn) => self.near_stroke(corner, stroke, turn),
            None => self.far_stroke(corner, stroke),
        }
    }

    // The same of any letter.
    fn far_stroke(&self, corner: Spot, stroke: GlyphStroke) -> (Spot, Spot)
        requires { IsWithin (2 ^ 65) corner }
        ensures value { result ≡ letter_stroke self.now.style corner stroke }
        ensures within { IsStrokeWithin result }
    {
        let from = self.point(corner, stroke.ax, stroke.ay);
        let to = self.point(corner, stroke.bx, stroke.by);
        (from, to)
    }

    // The point (i, j) of a letter's grid.
    #[inline]
    pub(crate) fn point(&self, corner: Spot, i: u8, j: i8) -> Spot
        requires { IsWithin (2 ^ 65) corner }
        ensures value { result ≡ letter_point self.now.style corner i j }
        ensures within { IsWithin (2 ^ 95) result }
    {
        let style = &self.style;
        let (column, row) = (i64::from(i), i64::from(j));
        style.direction.swung(Spot {
            x: share(on_grid(corner.x, column), style.width, WIDTH_PARTS)
                + slanted(row, style.slant, style.height),
            y: share(on_grid(corner.y, row), style.height, HEIGHT_PARTS),
        })
    }
}

// A coordinate that is `steps` steps of the grid from that of a corner.
#[inline]
fn on_grid(corner: i128, steps: i64) -> i128
    requires corner_in { nat_abs corner ≤ 2 ^ 65 }
    requires steps_in { nat_abs steps ≤ 255 }
    ensures value { result ≡ on_grid corner steps }
    ensures most { nat_abs result ≤ 2 ^ 66 }
{
    corner + i128::from(1_000_000 * (STEP * steps))
}

// How far a slant moves a point that is `steps` steps up, in grains. Most letters are upright.
#[inline]
fn slanted(steps: i64, slant: i64, height: i64) -> i128
    requires steps_in { nat_abs steps ≤ 255 }
    requires slant_in { nat_abs slant ≤ 1000200000 }
    requires height_in { nat_abs height ≤ 2 ^ 40 }
    ensures value { result ≡ labels.share (pos 3 *ℤ steps *ℤ slant) height (18 * 10 ^ 6) }
    ensures most { nat_abs result ≤ 2 ^ 84 }
{
    if slant == 0 {
        0
    } else {
        share(slanted_parts(steps, slant), height, HEIGHT_PARTS)
    }
}

// The same in millionths of parts of the height.
fn slanted_parts(steps: i64, slant: i64) -> i128
    requires steps_in { nat_abs steps ≤ 255 }
    requires slant_in { nat_abs slant ≤ 1000200000 }
    ensures value { result ≡ pos 3 *ℤ steps *ℤ slant }
    ensures most { nat_abs result ≤ 2 ^ 46 }
{
    i128::from(STEP * steps) * i128::from(slant)
}
