//! The row of a character.
ghost use Rattle.std.specs.Prelude.{◌≡◌, ◌<◌, map, IsTrue};
ghost use Rattle.full_font.specs.Glyphs.{font, lines_in};
ghost use Rattle.full_font.specs.Rows.{from_space, from_grave_accent, from_no_break_space, from_eth, further};
ghost use Rattle.full_font.specs.Rows.{rows_of, lines_at, code_points, is_rising};

use crate::font::{
    BOX, FROM_ETH, FROM_GRAVE_ACCENT, FROM_NO_BREAK_SPACE, FROM_SPACE, FURTHER, FontRow,
};

/// The polylines of a character.
pub(crate) fn polylines(code_point: u32) -> &'static [&'static str]
    ensures { map (λ line. line.now) result.now ≡ lines_in font code_point }
{
    match code_point {
        0x20..=0x5f => row_from_space((code_point - 0x20) as usize),
        0x60..=0x7e => row_from_grave_accent((code_point - 0x60) as usize),
        0xa0..=0xcf => row_from_no_break_space((code_point - 0xa0) as usize),
        0xd0..=0xff => row_from_eth((code_point - 0xd0) as usize),
        _ => search(further_rows(), code_point),
    }
}

// The polylines in a row of the table of the code points 0x20 to 0x5f.
fn row_from_space(i: usize) -> &'static [&'static str]
    requires { i < 64 }
    ensures { map (λ line. line.now) result.now ≡ lines_at from_space i }
{
    FROM_SPACE[i].1
}

// The same of the code points 0x60 to 0x7e.
fn row_from_grave_accent(i: usize) -> &'static [&'static str]
    requires { i < 31 }
    ensures { map (λ line. line.now) result.now ≡ lines_at from_grave_accent i }
{
    FROM_GRAVE_ACCENT[i].1
}

// The same of the code points 0xa0 to 0xcf.
fn row_from_no_break_space(i: usize) -> &'static [&'static str]
    requires { i < 48 }
    ensures { map (λ line. line.now) result.now ≡ lines_at from_no_break_space i }
{
    FROM_NO_BREAK_SPACE[i].1
}

// The same of the code points 0xd0 to 0xff.
fn row_from_eth(i: usize) -> &'static [&'static str]
    requires { i < 48 }
    ensures { map (λ line. line.now) result.now ≡ lines_at from_eth i }
{
    FROM_ETH[i].1
}

// All further rows.
fn further_rows() -> &'static [FontRow]
    ensures { rows_of result.now ≡ further }
{
    &FURTHER
}

// The polylines of a character by rows that are sorted by their code points. A character without a
// row has those of a box.
fn search(rows: &'static [FontRow], code_point: u32) -> &'static [&'static str]
    requires { IsTrue (is_rising (code_points (rows_of rows.now))) }
    ensures { map (λ line. line.now) result.now ≡ lines_in (rows_of rows.now) code_point }
{
    match rows.binary_search_by_key(&code_point, |&(n, _)| n) {
        Ok(i) => rows[i].1,
        Err(_) => &BOX,
    }
}
