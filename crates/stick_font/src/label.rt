//! The strokes of a label, before its characters have a size.
ghost use Rattle.std.specs.Prelude.{◌≡◌, ◌<◌, map, slice_get, IfSome};
ghost use Rattle.stick_font.specs.Bounds.{IsLabelPoint, IsLabelStroke, IsShortCell, IsShortPoint, IsShortStroke};
ghost use Rattle.stick_font.specs.Labels as points;

use crate::cell::Cell;
use crate::characters::{column_width, glyph};
use exact::Spot;

/// A stroke of a label, between two points: twelfths of a character's width right of the label's
/// start, and eighteenths of a character's height above it.
#[derive(Clone, Copy, Debug, PartialEq, Eq)]
pub struct LabelStroke {
    pub from: Spot,
    pub to: Spot,
}

/// The point (i, j) of the grid of a character in a cell, if the grid's columns are `unit` twelfths of
/// a character's width apart.
#[inline(always)]
pub(crate) fn grid_point(cell: Cell, unit: u8, i: u8, j: u8) -> Spot
    ensures value { result ≡ points.grid_point cell unit i j }
    ensures within { IsLabelPoint result }
    ensures short { IsShortCell cell → IsShortPoint result }
{
    let unit = i128::from(unit);
    Spot {
        x: 18 * i128::from(cell.column) + unit * i128::from(i),
        y: unit * i128::from(j) - 36 * i128::from(cell.line),
    }
}

/// Stroke `k` of a byte in a cell, or `None` if `k` is past its last. Strokes are numbered from 0.
#[inline(always)]
pub fn label_stroke(cell: Cell, byte: u8, k: usize) -> Option<LabelStroke>
    ensures value { result ≡ slice_get (points.character_strokes cell byte) k }
    ensures within { IfSome result (λ s. IsLabelStroke s) }
    ensures short { IsShortCell cell → IfSome result (λ s. IsShortStroke s) }
    ensures few { IfSome result (λ _. k < 15) }
{
    match glyph(byte, k) {
        Some(stroke) => {
            let unit = column_width(byte);
            Some(LabelStroke {
                from: grid_point(cell, unit, stroke.ax, stroke.ay),
                to: grid_point(cell, unit, stroke.bx, stroke.by),
            })
        }
        None => None,
    }
}
