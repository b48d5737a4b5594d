//! The strokes of characters.
ghost use Rattle.std.specs.Prelude.{◌≡◌, ◌<◌, ◌≤◌, length, map, Some, slice_get};
ghost use Rattle.full_font.specs.Glyphs as glyphs;

use crate::grid::{GlyphStroke, Point};
use crate::rows::polylines;

/// Stroke `k` of the character with this code point in Unicode, or `None` if `k` is past its last.
/// Strokes are numbered from 0, in the order in which they are drawn. A character that is not in the
/// font has the strokes of an empty box; the space and the no-break space have none.
pub fn glyph(code_point: u32, k: usize) -> Option<GlyphStroke>
    ensures { result ≡ slice_get (glyphs.code_point_strokes code_point) k }
{
    let mut left = k;
    for line in polylines(code_point) {
        let line = line.as_bytes();
        let count = stroke_count(line);
        if left < count {
            return Some(stroke_at(line, left));
        }
        left -= count;
    }
    None
}

// How many strokes a polyline has.
fn stroke_count(line: &[u8]) -> usize
    ensures { result ≡ length (glyphs.polyline_glyph_strokes line.now) }
{
    match point_count(line) {
        0 => 0,
        1 => 1,
        points => points - 1,
    }
}

// Stroke k of a polyline. A single point is joined to itself.
fn stroke_at(line: &[u8], k: usize) -> GlyphStroke
    requires { k < length (glyphs.polyline_glyph_strokes line.now) }
    ensures { slice_get (glyphs.polyline_glyph_strokes line.now) k ≡ Some result }
{
    let from = point_at(line, k);
    if k + 1 < point_count(line) {
        stroke(from, point_at(line, k + 1))
    } else {
        stroke(from, from)
    }
}

// The stroke from one point to another.
fn stroke(from: Point, to: Point) -> GlyphStroke
    ensures { result ≡ glyphs.glyph_stroke from to }
{
    GlyphStroke {
        ax: from.x,
        ay: from.y,
        bx: to.x,
        by: to.y,
    }
}

// How many points a polyline has: each but the last has a space after it.
fn point_count(line: &[u8]) -> usize
    ensures { result ≡ length (glyphs.glyph_points line.now) }
{
    (line.len() + 1) / 3
}

// Point i of a polyline.
fn point_at(line: &[u8], i: usize) -> Point
    requires { i < length (glyphs.glyph_points line.now) }
    ensures { slice_get (glyphs.glyph_points line.now) i ≡ Some result }
{
    Point {
        x: digit(line[3 * i]),
        y: y_of(line[3 * i + 1]),
    }
}

// The y that a byte stands for.
fn y_of(byte: u8) -> i8
    ensures { result ≡ glyphs.y_of byte }
{
    match byte {
        b'a' => -1,
        b'b' => -2,
        _ => digit(byte) as i8,
    }
}

// The value of a digit.
fn digit(byte: u8) -> u8
    ensures value { result ≡ glyphs.digit_or_0 byte }
    ensures most { result ≤ 9 }
{
    match byte {
        b'0'..=b'9' => byte - b'0',
        _ => 0,
    }
}
