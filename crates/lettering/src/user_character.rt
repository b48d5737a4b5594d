//! Characters that a plot draws by moves.
ghost use Rattle.std.specs.Prelude.{◌≡◌, ◌≤◌, ◌^◌, pos, ◌+ℤ◌, ◌*ℤ◌, nat_abs};
ghost use Rattle.directions.specs.Bounds.{IsWithin};
ghost use Rattle.lettering.specs.UserCharacters.{user_point, user_end};

use crate::cell::Cell;
use crate::checked::Lettering;
use crate::label::half_columns;
use crate::letter::{HEIGHT_PARTS, WIDTH_PARTS};
use crate::share::share;
use exact::Spot;

// The parts of a height of which an eighth has nine million: fourths of millionths of eighteenths.
const FOURTHS: u64 = 4 * HEIGHT_PARTS;

// The parts of a height in which the slant of a point is measured: millionths of millionths of eighths.
const SLANT_PARTS: u64 = 8_000_000_000_000;

impl Lettering {
    /// How far a point of a character that is drawn by moves is from the pen's place, in grains (HP-GL/2: UC). The point
    /// is in millionths of fourths of a letter's width and of eighths of its height, each within 2^53 of 0.
    pub fn user_point(&self, point: Spot) -> Spot
        requires { IsWithin (2 ^ 53) point }
        ensures value { result ≡ user_point self.now.style point }
        ensures within { IsWithin (2 ^ 95) result }
    {
        let style = &self.style;
        let corner = self.corner(Cell::FIRST, 1);
        style.direction.swung(Spot {
            x: share(rightward(corner.x, point.x), style.width, WIDTH_PARTS)
                + share(leaning(point.y, style.slant), style.height, SLANT_PARTS),
            y: share(upward(corner.y, point.y), style.height, FOURTHS),
        })
    }

    /// How far such a character moves the pen: as far as a label of one character does.
    pub fn user_end(&self) -> Spot
        ensures value { result ≡ user_end self.now.style }
        ensures within { IsWithin (2 ^ 95) result }
    {
        self.offset(half_columns(2 - self.origin_column(), 1), 0)
    }
}

// A coordinate that is so many millionths of fourths of a width right of a corner, in millionths of twelfths.
fn rightward(corner: i128, right: i128) -> i128
    requires corner_in { nat_abs corner ≤ 2 ^ 65 }
    requires right_in { nat_abs right ≤ 2 ^ 53 }
    ensures value { result ≡ corner +ℤ pos 3 *ℤ right }
    ensures most { nat_abs result ≤ 2 ^ 66 }
{
    corner + 3 * right
}

// A coordinate that is so many millionths of eighths of a height above a corner, in fourths of millionths of eighteenths.
fn upward(corner: i128, up: i128) -> i128
    requires corner_in { nat_abs corner ≤ 2 ^ 65 }
    requires up_in { nat_abs up ≤ 2 ^ 53 }
    ensures value { result ≡ pos 4 *ℤ corner +ℤ pos 9 *ℤ up }
    ensures most { nat_abs result ≤ 2 ^ 68 }
{
    4 * corner + 9 * up
}

// How far a slant moves a point that is so many millionths of eighths up, in parts of the height.
fn leaning(up: i128, slant: i64) -> i128
    requires up_in { nat_abs up ≤ 2 ^ 53 }
    requires slant_in { nat_abs slant ≤ 1000200000 }
    ensures value { result ≡ up *ℤ slant }
    ensures most { nat_abs result ≤ 2 ^ 84 }
{
    up * i128::from(slant)
}
