//! Circles that arcs are parts of.
ghost use Rattle.std.specs.Prelude.{◌≡◌, ◌++◌, ◌*◌, ◌≤◌, ◌<◌, ◌^◌, nat_abs, map, false, ◌+ℤ◌, ◌*ℤ◌, IfOk, IfSome};
ghost use Rattle.std.specs.List.{All};
ghost use Rattle.exact.specs.Fraction.{round, quotient};
ghost use Rattle.directions.specs.Bounds.{IsWithin};
ghost use Rattle.curves.specs.Arcs.{circle_through, circle_by, whole_circle, is_far, middle, between, place_at};
ghost use Rattle.curves.specs.Bounds.{IsNotZero, IsCircle};
ghost use Rattle.curves.specs.Vectors.{cross};

use crate::centre::centre;
use crate::vectors::{cross, divided, dot, square, turned_against, unit_of, vector_of, way};
use directions::{Direction, Turn};
use exact::Spot;
use std::alloc::AllocError;

// How far the centre may be, in ticks: 2^40.
const FAR: u128 = 1_099_511_627_776;

/// A circle that a pen moves along.
#[derive(Clone, Copy, Debug)]
pub struct Circle {
    /// Where the pen sets out.
    pub start: Spot,
    /// From there to the centre, in ticks of 1/256 grain.
    pub centre: Spot,
    /// Whether the pen moves clockwise.
    pub clockwise: bool,
    /// The direction in which it sets out.
    pub first: Direction,
    /// The direction from the start to where it stops.
    pub last: Direction,
}

impl Circle {
    /// The circle through three places, or `None` if they are on one line.
    pub fn through(a: Spot, b: Spot, c: Spot) -> Option<Circle>
        requires a_in { IsWithin (2 ^ 27) a }
        requires b_in { IsWithin (2 ^ 27) b }
        requires c_in { IsWithin (2 ^ 27) c }
        ensures value { result ≡ circle_through a b c }
        ensures sound { IfSome result IsCircle }
    {
        let to_b = way(a, b);
        if c == a {
            return if b == a {
                None
            } else {
                Some(Circle::whole(a, to_b))
            };
        }
        let to_c = way(a, c);
        if cross(to_b, to_c) == 0 {
            return None;
        }
        Some(Circle::by(a, to_b, to_c))
    }

    // The whole circle from a through a + b back to a.
    fn whole(a: Spot, b: Spot) -> Circle
        requires a_in { IsWithin (2 ^ 27) a }
        requires b_in { IsWithin (2 ^ 28) b }
        requires not_zero { IsNotZero b }
        ensures value { result ≡ whole_circle a b }
        ensures sound { IsCircle result }
    {
        let first = unit_of(turned_against(false, b));
        Circle {
            start: a,
            centre: Spot {
                x: 128 * b.x,
                y: 128 * b.y,
            },
            clockwise: false,
            first,
            last: first.turned(Turn::Half),
        }
    }

    // The circle of the arc from a through a + b to a + c.
    #[tactic(auto, unfolding(crate::specs::Arcs::circle_by))]
    fn by(a: Spot, b: Spot, c: Spot) -> Circle
        requires a_in { IsWithin (2 ^ 27) a }
        requires b_in { IsWithin (2 ^ 28) b }
        requires c_in { IsWithin (2 ^ 28) c }
        requires apart { 0 < nat_abs (cross b c) }
        ensures value { result ≡ circle_by a b c }
        ensures sound { IsCircle result }
    {
        let centre = centre(b, c);
        let clockwise = cross(b, c) < 0;
        Circle {
            start: a,
            centre,
            clockwise,
            first: unit_of(turned_against(clockwise, centre)),
            last: unit_of(c),
        }
    }

    /// Whether the centre is too far away for the arc to be told from a line.
    pub fn is_far(&self) -> bool
        ensures value { result ≡ is_far self.now }
        ensures near { result ≡ false → IsWithin (2 ^ 40) self.now.centre }
    {
        self.centre
            .x
            .unsigned_abs()
            .max(self.centre.y.unsigned_abs())
            > FAR
    }

    /// Adds the places in the directions between p and q, after a middle was put between all
    /// neighbours k times.
    #[tactic(auto, unfolding(crate::specs::Arcs::between))]
    pub fn add_between(
        &self,
        places: &mut Vec<Spot>,
        k: u32,
        p: Direction,
        q: Direction,
    ) -> Result<(), AllocError>
        requires start_in { IsWithin (2 ^ 27) self.now.start }
        requires centre_in { IsWithin (2 ^ 40) self.now.centre }
        requires p_above { IsNotZero p }
        ensures value { IfOk result (λ _. places.new.items
            ≡ places.old.items ++ map (place_at self.now) (between self.now.clockwise k p q)) }
        ensures within { IfOk result (λ _.
            All (IsWithin (2 ^ 35)) places.old.items → All (IsWithin (2 ^ 35)) places.new.items) }
    {
        if k == 0 {
            return Ok(());
        }
        let middle = middle(self.clockwise, p, q);
        self.add_between(places, k - 1, p, middle)?;
        places.push(self.place_at(middle))?;
        self.add_between(places, k - 1, middle, q)
    }

    // Where the line from the start in a direction meets the circle again.
    fn place_at(&self, direction: Direction) -> Spot
        requires start_in { IsWithin (2 ^ 27) self.now.start }
        requires centre_in { IsWithin (2 ^ 40) self.now.centre }
        requires above { IsNotZero direction }
        ensures value { result ≡ place_at self.now direction }
        ensures within { IsWithin (2 ^ 35) result }
    {
        let d = vector_of(direction);
        let along = 2 * dot(self.centre, d);
        let under = 256 * square(d);
        Spot {
            x: moved(self.start.x, d.x, along, under),
            y: moved(self.start.y, d.y, along, under),
        }
    }
}

// The direction midway from p to q.
fn middle(clockwise: bool, p: Direction, q: Direction) -> Direction
    requires { IsNotZero p }
    ensures value { result ≡ middle clockwise p q }
    ensures above { IsNotZero result }
{
    let (p, q) = (vector_of(p), vector_of(q));
    if dot(p, q) >= 0 {
        unit_of(Spot {
            x: p.x + q.x,
            y: p.y + q.y,
        })
    } else {
        unit_of(turned_against(clockwise, way(p, q)))
    }
}

// A coordinate after the start's: d * along / under from it, rounded.
fn moved(start: i128, d: i128, along: i128, under: i128) -> i128
    requires start_in { nat_abs start ≤ 2 ^ 27 }
    requires d_in { nat_abs d ≤ 2 ^ 30 }
    requires along_in { nat_abs along ≤ 2 ^ 72 }
    requires under_in { nat_abs under ≤ 2 ^ 70 }
    requires under_above { 0 < nat_abs under }
    requires near { nat_abs (d *ℤ along) ≤ nat_abs under * 2 ^ 34 }
    ensures value { result ≡ start +ℤ round (quotient (d *ℤ along) under) }
    ensures most { nat_abs result ≤ 2 ^ 35 }
{
    start + divided(d * along, under)
}
