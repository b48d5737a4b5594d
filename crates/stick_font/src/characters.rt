//! The strokes of characters.
ghost use Rattle.std.specs.Prelude.{◌≡◌, ◌<◌, length, map, Some, [], slice_get, slice_index_or};
ghost use Rattle.stick_font.specs.Glyphs as glyphs;

use crate::font::{FROM_EXCLAMATION_MARK, FROM_LEFT_BRACE};
use crate::grid::{GridStroke, Point};

/// Stroke `k` of the character `byte`, or `None` if `k` is past its last. Strokes are numbered from
/// 0, in the order in which they are drawn. The bytes 33 to 126 have strokes. A small letter has
/// those of its capital, on narrower columns: see `column_width`.
pub fn glyph(byte: u8, k: usize) -> Option<GridStroke>
    ensures { result ≡ slice_get (glyphs.glyph_strokes byte) k }
{
    let mut left = k;
    for line in polylines(byte) {
        let line = line.as_bytes();
        let count = stroke_count(line);
        if left < count {
            return Some(stroke_at(line, left));
        }
        left -= count;
    }
    None
}

/// The distance between two columns of the character's grid, in twelfths of a capital's width: 3, or
/// 2 for a small letter.
pub fn column_width(byte: u8) -> u8
    ensures { result ≡ glyphs.column_width byte }
{
    if byte.is_ascii_lowercase() { 2 } else { 3 }
}

// The polylines of a character.
fn polylines(byte: u8) -> &'static [&'static str]
    ensures { map (λ line. line.now) result.now ≡ glyphs.polylines byte }
{
    match byte {
        b'!'..=b'`' => first_row(usize::from(byte - b'!')),
        b'a'..=b'z' => first_row(usize::from(byte - b'a' + b'A' - b'!')),
        b'{'..=b'~' => last_row(usize::from(byte - b'{')),
        _ => &[],
    }
}

// The polylines in a row of the table of the bytes 33 to 96.
fn first_row(i: usize) -> &'static [&'static str]
    requires { i < 64 }
    ensures { map (λ line. line.now) result.now ≡ slice_index_or glyphs.first_rows i [] }
{
    FROM_EXCLAMATION_MARK[i]
}

// The polylines in a row of the table of the bytes 123 to 126.
fn last_row(i: usize) -> &'static [&'static str]
    requires { i < 4 }
    ensures { map (λ line. line.now) result.now ≡ slice_index_or glyphs.last_rows i [] }
{
    FROM_LEFT_BRACE[i]
}

// How many strokes a polyline has.
fn stroke_count(line: &[u8]) -> usize
    ensures { result ≡ length (glyphs.polyline_strokes line.now) }
{
    match point_count(line) {
        0 => 0,
        1 => 1,
        points => points - 1,
    }
}

// Stroke k of a polyline. A single point is joined to itself.
fn stroke_at(line: &[u8], k: usize) -> GridStroke
    requires { k < length (glyphs.polyline_strokes line.now) }
    ensures { slice_get (glyphs.polyline_strokes line.now) k ≡ Some result }
{
    let from = point_at(line, k);
    let to = if k + 1 < point_count(line) {
        point_at(line, k + 1)
    } else {
        from
    };
    GridStroke {
        ax: from.x,
        ay: from.y,
        bx: to.x,
        by: to.y,
    }
}

// How many points a polyline has: each but the last has a space after it.
fn point_count(line: &[u8]) -> usize
    ensures { result ≡ length (glyphs.grid_points line.now) }
{
    (line.len() + 1) / 3
}

// Point i of a polyline.
fn point_at(line: &[u8], i: usize) -> Point
    requires { i < length (glyphs.grid_points line.now) }
    ensures { slice_get (glyphs.grid_points line.now) i ≡ Some result }
{
    Point {
        x: digit(line[3 * i]),
        y: digit(line[3 * i + 1]),
    }
}

// The value of a digit.
fn digit(byte: u8) -> u8
    ensures { result ≡ glyphs.digit byte }
{
    byte.saturating_sub(b'0')
}
