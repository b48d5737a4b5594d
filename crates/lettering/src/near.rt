//! The strokes of letters that are upright, along an axis and near their label's start: they are computed in 64 bits,
//! which is faster.
ghost use Rattle.std.specs.Prelude.{◌≡◌, ◌≤◌, ◌*◌, ◌^◌, pos, nat_abs, IfSome, true};
ghost use Rattle.directions.specs.Bounds.{IsWithin};
ghost use Rattle.directions.specs.Directions as directions;
ghost use Rattle.directions.specs.Laws.{right};
ghost use Rattle.lettering.specs.Bounds.{IsNear, IsStrokeWithin};
ghost use Rattle.lettering.specs.Letters.{on_grid, letter_point, letter_stroke};

use crate::checked::Lettering;
use crate::letter::{HEIGHT_PARTS, STEP, WIDTH_PARTS};
use crate::share::{is_short_size, short_share};
use crate::style::Style;
use directions::{Direction, Turn};
use exact::Spot;
use full_font::GlyphStroke;

// The greatest coordinate of a corner of which points are computed in 64 bits.
const MOST_NEAR: i128 = 1 << 35;

impl Lettering {
    // How letters with this corner are turned, if their points are computed in 64 bits.
    pub(crate) fn near_turn(&self, corner: Spot) -> Option<Turn>
        ensures { IfSome result (IsNear self.now.style corner) }
    {
        if is_usual(&self.style) && is_near_start(corner) {
            turn_along(self.style.direction)
        } else {
            None
        }
    }

    // A stroke of such a letter.
    #[inline(always)]
    pub(crate) fn near_stroke(&self, corner: Spot, stroke: GlyphStroke, turn: Turn) -> (Spot, Spot)
        requires { IsNear self.now.style corner turn }
        ensures value { result ≡ letter_stroke self.now.style corner stroke }
        ensures within { IsStrokeWithin result }
    {
        let from = self.near_point(corner, stroke.ax, stroke.ay, turn);
        let to = self.near_point(corner, stroke.bx, stroke.by, turn);
        (from, to)
    }

    // The point (i, j) of its grid.
    #[inline(always)]
    fn near_point(&self, corner: Spot, i: u8, j: i8, turn: Turn) -> Spot
        requires { IsNear self.now.style corner turn }
        ensures value { result ≡ letter_point self.now.style corner i j }
        ensures within { IsWithin (2 ^ 95) result }
    {
        let style = &self.style;
        let right = near_on_grid(corner.x as i64, i64::from(i));
        let up = near_on_grid(corner.y as i64, i64::from(j));
        turned(
            turn,
            short_share(right, style.width, WIDTH_PARTS),
            short_share(up, style.height, HEIGHT_PARTS),
        )
    }
}

// Whether letters are upright, and their size is small enough for that.
fn is_usual(style: &Style) -> bool
    ensures upright { result ≡ true → style.now.slant ≡ pos 0 }
    ensures width { result ≡ true → nat_abs style.now.width ≤ 2 ^ 24 }
    ensures height { result ≡ true → nat_abs style.now.height ≤ 2 ^ 24 }
{
    style.slant == 0 && is_short_size(style.width) && is_short_size(style.height)
}

// Whether a corner is near its label's start.
fn is_near_start(corner: Spot) -> bool
    ensures { result ≡ true → IsWithin (2 ^ 35) corner }
{
    is_near(corner.x) && is_near(corner.y)
}

// By which turn a direction is along an axis, if it is.
fn turn_along(direction: Direction) -> Option<Turn>
    ensures { IfSome result (λ turn. direction ≡ directions.vector_turned turn right) }
{
    if is_along(direction, Turn::None) {
        Some(Turn::None)
    } else if is_along(direction, Turn::Quarter) {
        Some(Turn::Quarter)
    } else if is_along(direction, Turn::Half) {
        Some(Turn::Half)
    } else if is_along(direction, Turn::ThreeQuarters) {
        Some(Turn::ThreeQuarters)
    } else {
        None
    }
}

// Whether a direction is the one to the right after a turn.
fn is_along(direction: Direction, turn: Turn) -> bool
    ensures { result ≡ true → direction ≡ directions.vector_turned turn right }
{
    let along = Direction::RIGHT.turned(turn);
    direction.x() == along.x() && direction.y() == along.y()
}

// A point after a turn.
#[inline(always)]
fn turned(turn: Turn, right: i64, up: i64) -> Spot
    requires right_in { nat_abs right ≤ 2 ^ 60 }
    requires up_in { nat_abs up ≤ 2 ^ 60 }
    ensures value { result ≡ directions.vector_turned turn (record { x = right; y = up }) }
    ensures within { IsWithin (2 ^ 95) result }
{
    match turn {
        Turn::None => spot(right, up),
        Turn::Quarter => spot(-up, right),
        Turn::Half => spot(-right, -up),
        Turn::ThreeQuarters => spot(up, -right),
    }
}

#[inline(always)]
fn spot(x: i64, y: i64) -> Spot
    ensures { result ≡ record { x = x; y = y } }
{
    Spot {
        x: i128::from(x),
        y: i128::from(y),
    }
}

// Whether a coordinate of a corner is near that of the label's start.
#[inline]
fn is_near(corner: i128) -> bool
    ensures { result ≡ true → nat_abs corner ≤ 2 ^ 35 }
{
    -MOST_NEAR <= corner && corner <= MOST_NEAR
}

// A coordinate that is `steps` steps of the grid from that of a corner.
#[inline(always)]
fn near_on_grid(corner: i64, steps: i64) -> i64
    requires corner_in { nat_abs corner ≤ 2 ^ 35 }
    requires steps_in { nat_abs steps ≤ 255 }
    ensures value { result ≡ on_grid corner steps }
    ensures most { nat_abs result ≤ 2 ^ 36 }
{
    corner + 1_000_000 * (STEP * steps)
}
