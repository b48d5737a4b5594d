//! Edges in a row of pixels, and in the rows below it.
ghost use Rattle.std.specs.Prelude.{◌≡◌, ◌≤◌, ◌^◌, nat_abs, pos, ◌+ℤ◌, ◌-ℤ◌, ◌*ℤ◌, ◌<ℤ◌, ◌≤ℤ◌};
ghost use Rattle.areas.specs.Sweeps.{IsFrom, IsSomewhere, IsSweptAs, IsWaiting, below, place_of, waiting_from};

use exact::{floored, product};
use plot_page::{Dots, Stroke};

/// An edge that has a height, from its lower end (`ax`, `ay`) to its upper one (`bx`, `by`), in grains; and where it is in a row of
/// pixels, once the rows have come to it.
#[derive(Clone, Copy, Debug)]
pub struct SweptEdge {
    pub ax: i32,
    pub ay: i32,
    pub bx: i32,
    pub by: i32,
    /// Whether the edge leads from the lower end to the upper one.
    pub is_upward: bool,
    /// The first column whose centre is not left of the edge's line.
    pub column: i64,
    /// How far right of the line that centre is, in steps times the edge's height.
    pub short: i64,
    /// How far the line leads to the right for each pixel that it rises: `step` pixels, and `rest` parts of one, of which the
    /// edge's height in grains makes a pixel.
    pub step: i64,
    pub rest: i64,
}

/// An edge, if a row from height `top` down to height `bottom` may be level with it. Heights are in steps.
pub fn swept(edge: &Stroke, dots: Dots, bottom: i64, top: i64) -> Option<SweptEdge>
    ensures { IsSweptAs dots.resolution bottom top edge.now result }
{
    let first = scaled(dots, edge.ay);
    let last = scaled(dots, edge.by);
    if first < last && first <= top && bottom < last {
        let up = SweptEdge::waiting(edge.ax, edge.ay, edge.bx, edge.by, true);
        return Some(up);
    }
    if last < first && last <= top && bottom < first {
        let down = SweptEdge::waiting(edge.bx, edge.by, edge.ax, edge.ay, false);
        return Some(down);
    }
    None
}

impl SweptEdge {
    // The edge from a lower end to an upper one, to which no row has come yet.
    fn waiting(ax: i32, ay: i32, bx: i32, by: i32, is_upward: bool) -> SweptEdge
        ensures { result ≡ waiting_from ax ay bx by is_upward }
    {
        SweptEdge {
            ax,
            ay,
            bx,
            by,
            is_upward,
            column: 0,
            short: 0,
            step: 0,
            rest: 0,
        }
    }

    /// The edge in the row at a height.
    pub fn placed(self, dots: Dots, height: i64) -> SweptEdge
        requires waiting { IsWaiting self }
        requires near { nat_abs height ≤ 2 ^ 34 }
        ensures { IsFrom dots.resolution height self.ax self.ay self.bx self.by self.is_upward result }
    {
        SweptEdge::between(
            self.ax,
            self.ay,
            self.bx,
            self.by,
            self.is_upward,
            dots,
            height,
        )
    }

    // The edge from a lower end to an upper one, in the row at a height.
    fn between(
        ax: i32,
        ay: i32,
        bx: i32,
        by: i32,
        is_upward: bool,
        dots: Dots,
        height: i64,
    ) -> SweptEdge
        requires low_x { nat_abs ax ≤ 134217712 }
        requires low_y { nat_abs ay ≤ 134217712 }
        requires high_x { nat_abs bx ≤ 134217712 }
        requires high_y { nat_abs by ≤ 134217712 }
        requires rising { ay <ℤ by }
        requires near { nat_abs height ≤ 2 ^ 34 }
        ensures { IsFrom dots.resolution height ax ay bx by is_upward result }
    {
        let run = difference(ax, bx);
        let rise = difference(ay, by);
        let slope = divide_down(run, rise);
        let place = place_of(scaled(dots, ax), height - scaled(dots, ay), run, rise);
        let before = divide_far(-place, pixel_of(ay, by));
        SweptEdge {
            ax,
            ay,
            bx,
            by,
            is_upward,
            column: -before.times,
            short: before.rest,
            step: slope.times,
            rest: slope.rest,
        }
    }

    /// The edge in the row below.
    pub fn below(self) -> SweptEdge
        requires { IsSomewhere self }
        ensures { result ≡ below self }
    {
        let whole = pixel_of(self.ay, self.by);
        let column = self.column - self.step;
        let short = self.short + 16256 * self.rest;
        if short < whole {
            SweptEdge {
                column,
                short,
                ..self
            }
        } else {
            SweptEdge {
                column: column - 1,
                short: short - whole,
                ..self
            }
        }
    }
}

// How far right of the left edge of the page a line that begins at x is, so far above its lower end, less half a pixel: in steps
// times its rise.
fn place_of(x: i64, above: i64, run: i64, rise: i64) -> i128
    requires right { nat_abs x ≤ 2 ^ 38 }
    requires above { nat_abs above ≤ 2 ^ 39 }
    requires run { nat_abs run ≤ 2 ^ 28 }
    requires rise { nat_abs rise ≤ 2 ^ 28 }
    ensures value { result ≡ place_of x above run rise }
    ensures within { nat_abs result ≤ 2 ^ 68 }
{
    product(x - 8128, rise) + product(run, above)
}

// How often a number holds another, and what is left.
#[derive(Clone, Copy)]
struct Divided {
    times: i64,
    rest: i64,
}

fn divide_down(a: i64, b: i64) -> Divided
    requires within { nat_abs a ≤ 2 ^ 56 }
    requires above { pos 0 <ℤ b }
    requires below { nat_abs b ≤ 2 ^ 42 }
    ensures is { result.times *ℤ b +ℤ result.rest ≡ a }
    ensures low { pos 0 ≤ℤ result.rest }
    ensures high { result.rest <ℤ b }
    ensures within { nat_abs result.times ≤ 2 ^ 56 }
{
    let times = a.div_euclid(b);
    Divided {
        times,
        rest: a - times * b,
    }
}

// The same, of a number that may not fit 64 bits.
fn divide_far(a: i128, b: i64) -> Divided
    requires within { nat_abs a ≤ 2 ^ 68 }
    requires above { pos 16256 ≤ℤ b }
    requires below { nat_abs b ≤ 2 ^ 42 }
    ensures is { result.times *ℤ b +ℤ result.rest ≡ a }
    ensures low { pos 0 ≤ℤ result.rest }
    ensures high { result.rest <ℤ b }
    ensures within { nat_abs result.times ≤ 2 ^ 56 }
{
    let times = floored(a, i128::from(b)) as i64;
    Divided {
        times,
        rest: (a - product(times, b)) as i64,
    }
}

// The way from a coordinate to another, in grains.
fn difference(from: i32, to: i32) -> i64
    requires from { nat_abs from ≤ 134217712 }
    requires to { nat_abs to ≤ 134217712 }
    ensures value { result ≡ to -ℤ from }
    ensures within { nat_abs result ≤ 2 ^ 28 }
{
    i64::from(to) - i64::from(from)
}

// A pixel, times the rise of an edge.
fn pixel_of(low: i32, high: i32) -> i64
    requires low { nat_abs low ≤ 134217712 }
    requires high { nat_abs high ≤ 134217712 }
    ensures value { result ≡ pos 16256 *ℤ (high -ℤ low) }
    ensures within { nat_abs result ≤ 2 ^ 42 }
{
    16256 * difference(low, high)
}

/// A coordinate in grains, in steps.
pub fn scaled(dots: Dots, grains: i32) -> i64
    requires { nat_abs grains ≤ 134217712 }
    ensures value { result ≡ pos dots.resolution *ℤ grains }
    ensures within { nat_abs result ≤ 2 ^ 38 }
{
    i64::from(dots.per_inch()) * i64::from(grains)
}
