//! The cells of a label, each of which has room for a character.
ghost use Rattle.std.specs.Prelude.{◌≡◌, ◌+◌, ◌<◌, ◌^◌};
ghost use Rattle.std.specs.Bool.{OnTrue};
ghost use Rattle.stick_font.specs.Bounds.{IsLabelPoint, IsShortCell, moved_on};
ghost use Rattle.stick_font.specs.Labels as points;

use crate::label::grid_point;
use exact::Spot;

const LINE_FEED: u8 = b'\n';

const CARRIAGE_RETURN: u8 = b'\r';

// The greatest column and line of a cell near the label's start.
const MOST_SHORT: u64 = 1 << 23;

/// A cell of a label: its column, counted from the label's start, and its line, counted downward.
#[derive(Clone, Copy, Debug, PartialEq, Eq)]
pub struct Cell {
    pub column: u64,
    pub line: u64,
}

impl Cell {
    /// The cell of a label's first character.
    pub const FIRST: Cell = Cell { column: 0, line: 0 };

    /// The cell after a byte. A printed byte, 32 to 126, takes up one column. CR goes back to the
    /// first column, LF goes down a line, and all other bytes are ignored.
    pub fn after(self, byte: u8) -> Cell
        requires column { self.column + 1 < 2 ^ 64 }
        requires line { self.line + 1 < 2 ^ 64 }
        ensures { result ≡ moved_on self byte }
    {
        match byte {
            LINE_FEED => Cell {
                column: self.column,
                line: self.line + 1,
            },
            CARRIAGE_RETURN => Cell {
                column: 0,
                line: self.line,
            },
            b' '..=b'~' => Cell {
                column: self.column + 1,
                line: self.line,
            },
            _ => self,
        }
    }

    /// Whether it is near the label's start, so that `CharacterSize::short_offset` takes its points.
    #[inline]
    pub fn is_short(self) -> bool
        ensures { OnTrue result (IsShortCell self) }
    {
        self.column <= MOST_SHORT && self.line <= MOST_SHORT
    }

    /// Its lower left corner, the point (0, 0) of its character's grid: twelfths of a character's width
    /// right of the label's start, and eighteenths of a character's height above it.
    pub fn corner(self) -> Spot
        ensures value { result ≡ points.corner self }
        ensures within { IsLabelPoint result }
    {
        grid_point(self, 0, 0, 0)
    }
}
