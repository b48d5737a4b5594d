//! The cells of a label.
ghost use Rattle.std.specs.Prelude.{◌≡◌, ◌+◌, ◌<◌, ◌≤◌, ◌^◌, nat_abs};
ghost use Rattle.lettering.specs.Columns.{column_after_sign, cell_moved_on};

use character_sets::Sign;

// How many columns apart tab stops are.
const TAB: i64 = 8;

// A cell of a label, which has room for a letter: its column, which is below 0 left of the label's start,
// and its line, counted downward.
#[derive(Clone, Copy)]
pub struct Cell {
    pub column: i64,
    pub line: u64,
}

impl Cell {
    // The cell of a label's first letter.
    pub const FIRST: Cell = Cell { column: 0, line: 0 };

    // The cell after a sign.
    pub fn after(self, sign: Sign) -> Cell
        requires column_in { nat_abs self.column ≤ 2 ^ 40 }
        requires line_in { self.line ≤ 2 ^ 40 }
        ensures value { result ≡ cell_moved_on self sign }
        ensures column_near { nat_abs result.column ≤ nat_abs self.column + 8 }
        ensures line_near { result.line ≤ self.line + 1 }
    {
        match sign {
            Sign::LineFeed => Cell {
                column: self.column,
                line: self.line + 1,
            },
            _ => Cell {
                column: column_after_sign(self.column, sign),
                line: self.line,
            },
        }
    }
}

// The column after a sign.
pub fn column_after_sign(column: i64, sign: Sign) -> i64
    requires { nat_abs column ≤ 2 ^ 40 }
    ensures value { result ≡ column_after_sign column sign }
    ensures near { nat_abs result ≤ nat_abs column + 8 }
{
    match sign {
        Sign::Printed(_) => column + 1,
        Sign::Back => column - 1,
        Sign::Tab => TAB * (column.div_euclid(TAB) + 1),
        Sign::CarriageReturn => 0,
        Sign::LineFeed => column,
    }
}
