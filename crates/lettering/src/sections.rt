//! How many letters long the sections of a label are, which CR separates, and the cell after a label.
ghost use Rattle.std.specs.Prelude.{◌≡◌, ◌≤◌, ◌^◌, length, nat_abs};
ghost use Rattle.lettering.specs.Columns.{last_cell, section_letters};

use crate::cell::{Cell, column_after_sign};
use character_sets::{Sign, Signs};

// How many letters long the section is that begins with these signs: the greatest column that is reached
// before the first CR, and at least 1.
pub fn section_letters(signs: Signs<'_>) -> i64
    requires { length signs ≤ 2 ^ 26 }
    ensures value { result ≡ section_letters signs.entry }
    ensures most { nat_abs result ≤ 2 ^ 29 }
{
    let mut rest = signs;
    let mut column = 0;
    let mut most = 1;
    'signs: while let Some(sign) = rest.next_sign() {
        if let Sign::CarriageReturn = sign {
            return most;
        }
        column = column_after_sign(column, sign);
        most = most.max(column);
    }
    most
}

// The cell after a label.
pub fn last_cell(signs: Signs<'_>) -> Cell
    requires { length signs ≤ 2 ^ 26 }
    ensures value { result ≡ last_cell signs.entry }
    ensures column_in { nat_abs result.column ≤ 2 ^ 29 }
    ensures line_in { result.line ≤ 2 ^ 26 }
{
    let mut rest = signs;
    let mut cell = Cell::FIRST;
    'signs: while let Some(sign) = rest.next_sign() {
        cell = cell.after(sign);
    }
    cell
}
