//! Lines, measured.
ghost use Rattle.std.specs.Prelude.{◌≡◌, ◌≤◌, ◌<◌, ◌*◌, ◌^◌, nat_abs, pos, ◌*ℤ◌, true, IfSome};
ghost use Rattle.std.specs.Option.{option_to_list};
ghost use Rattle.plot_arc.specs.Arcs.{sine_of, cosine_of};
ghost use Rattle.exact.specs.Fraction.{quotient, round};
ghost use Rattle.polygons.specs.Fills.{height, rank, line_distance, level, line_from, crosses};
ghost use Rattle.polygons.specs.Climbs.{climb_of, IsInRange, crossing_of};

use crate::climb::{Climb, Crossing};
use crate::edge::Edge;
use crate::lines::Lines;
use crate::place::Place;
use crate::ways::moved;
use exact::Spot;
use plot_arc::sine;

// Lines with the sine and the cosine of their angle.
#[derive(Clone, Copy, Debug)]
pub struct Ruling {
    lines: Lines,
    cosine: i64,
    sine: i64,
    pub ghost cosine_is: { cosine ≡ cosine_of lines.angle },
    pub ghost sine_is: { sine ≡ sine_of lines.angle },
    pub ghost cosine_in: { nat_abs cosine ≤ 10 ^ 7 },
    pub ghost sine_in: { nat_abs sine ≤ 10 ^ 7 },
    pub ghost apart_least: { 4096 ≤ lines.apart },
    pub ghost apart_most: { lines.apart ≤ 2 ^ 40 },
}

impl Ruling {
    pub fn new(lines: Lines) -> Ruling
        requires least { 4096 ≤ lines.apart }
        requires most { lines.apart ≤ 2 ^ 40 }
        ensures { result.lines ≡ lines }
    {
        let angle = i64::from(lines.angle);
        Ruling {
            lines,
            cosine: sine(angle + 90_000),
            sine: sine(angle),
        }
    }

    // How far a place is from the line through the anchor.
    pub fn height(&self, place: Place) -> i64
        ensures value { result ≡ height self.now.lines place }
        ensures most { nat_abs result ≤ 10 ^ 7 * 2 ^ 37 }
    {
        let anchor = self.lines.anchor;
        let up = product(self.cosine, place.y() - anchor.y());
        let across = product(self.sine, place.x() - anchor.x());
        256 * (up - across)
    }

    // How far along the lines a place is.
    pub fn rank(&self, place: Place) -> i64
        ensures value { result ≡ rank self.now.lines place }
        ensures most { nat_abs result ≤ 10 ^ 7 * 2 ^ 29 }
    {
        product(self.cosine, place.x()) + product(self.sine, place.y())
    }

    // From each line to the next.
    fn line_distance(&self) -> i128
        ensures value { result ≡ pos (line_distance self.now.lines) }
        ensures least { 10 ^ 7 * 2 ^ 12 ≤ line_distance self.now.lines }
        ensures most { line_distance self.now.lines ≤ 10 ^ 7 * 2 ^ 40 }
    {
        10_000_000 * i128::from(self.lines.apart)
    }

    // The least line that is not below a height.
    pub fn line_from(&self, height: i64) -> i32
        requires { nat_abs height ≤ 10 ^ 7 * 2 ^ 37 }
        ensures value { result ≡ line_from self.now.lines height }
        ensures most { nat_abs result ≤ 2 ^ 25 }
    {
        let below = (-i128::from(height)).div_euclid(self.line_distance());
        -(below as i32)
    }

    // The lines that an edge crosses, if there are any.
    pub fn climb(&self, edge: &Edge, number: usize) -> Option<Climb>
        ensures value { option_to_list result ≡ climb_of self.now.lines number edge.now }
        ensures range { IfSome result IsInRange }
        ensures number { IfSome result (λ climb. climb.number ≡ number) }
    {
        let from = self.height(edge.from);
        let to = self.height(edge.to);
        let first = self.line_from(from.min(to));
        let end = self.line_from(from.max(to));
        if first < end {
            return Some(Climb { first, end, number });
        }
        None
    }

    // Where an edge crosses a line.
    pub fn crossing(&self, line: i32, edge: &Edge, number: usize) -> Crossing
        requires line_in { nat_abs line ≤ 2 ^ 25 }
        requires crosses { crosses self.now.lines line edge.now ≡ true }
        ensures { result ≡ crossing_of self.now.lines line edge.now number }
    {
        let below = i128::from(self.height(edge.from));
        let above = i128::from(self.height(edge.to));
        let level = i128::from(line) * self.line_distance();
        let place = moved(edge.from, edge.to, level - below, above - below);
        Crossing {
            place,
            rank: self.rank(place),
            is_upward: below < above,
            number,
        }
    }
}

// A sine or a cosine, which is in ten-millionths, times a distance.
fn product(sine: i64, distance: i64) -> i64
    requires sine_in { nat_abs sine ≤ 10 ^ 7 }
    requires distance_in { nat_abs distance ≤ 2 ^ 28 }
    ensures value { result ≡ sine *ℤ distance }
    ensures most { nat_abs result ≤ 10 ^ 7 * 2 ^ 28 }
{
    sine * distance
}
