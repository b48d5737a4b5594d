//! A sweep over the rows of an area, from above to below: which columns of each are inside.
ghost use Rattle.std.specs.Prelude.{◌≡◌, ℕ, ℤ, List, [], ◌+◌, ◌≤◌, ◌<◌, ◌^◌, ◌↔◌, ◌≤ℤ◌, ◌-ℤ◌, IfOk, IsTrue, drop, filter, length, map, nat_abs, pos, take};
ghost use Rattle.std.specs.List.{All};
ghost use Rattle.std.specs.List.Sorted.{IsPermutation};
ghost use Rattle.plot_page.specs.Segments.{Segment};
ghost use Rattle.areas.specs.Crossings.{AreCrossings, AreOrdered, centre_of_column, IsRange, found_in, is_in_any};
ghost use Rattle.areas.specs.Inside.{is_inside_area};
ghost use Rattle.areas.specs.Sweeps.{AreBelow, AreNear, AreSwept, Follows, HasRoomFor, IsInRow, IsSomewhere, IsSweeping, IsSweepingAmong, IsSweepingOver, below, reaches_down};

use crate::crossing::{Crossing, crossing_of};
use crate::range::{ColumnRange, divide};
use crate::swept_edge::{SweptEdge, scaled, swept};
use plot_page::{Dots, Stroke};
use polygons::Rule;
use std::alloc::{AllocError, Global};

/// A sweep over rows of an area: the edges that these rows may pass, first those that wait until the rows come to them, the highest
/// last, and before `end` those that the rows have come to, as they are in the next row; and room for the crossings of a row with
/// these, and for the ranges of columns between the crossings.
#[derive(Drop)]
pub struct AreaSweep {
    near: Vec<SweptEdge>,
    waiting: usize,
    end: usize,
    crossings: Vec<Crossing>,
    ranges: Vec<ColumnRange>,
    count: usize,
}

impl AreaSweep {
    /// Room for an area with so many edges.
    pub fn new(alloc: Global, edges: usize) -> Result<AreaSweep, AllocError>
        requires { edges < 2 ^ 32 }
        ensures { IfOk result (HasRoomFor edges) }
    {
        let nobody = SweptEdge {
            ax: 0,
            ay: 0,
            bx: 0,
            by: 0,
            is_upward: false,
            column: 0,
            short: 0,
            step: 0,
            rest: 0,
        };
        let nowhere = Crossing {
            column: 0,
            is_upward: false,
        };
        let none = ColumnRange { first: 0, end: 0 };
        let near = vec![in alloc; nobody; edges]?;
        let crossings = vec![in alloc; nowhere; edges]?;
        let ranges = vec![in alloc; none; edges + 1]?;
        Ok(AreaSweep {
            near,
            waiting: 0,
            end: 0,
            crossings,
            ranges,
            count: 0,
        })
    }

    /// Whether there is room for an area with so many edges.
    pub fn has_room_for(&self, edges: usize) -> bool
        ensures { IsTrue result ↔ HasRoomFor edges self.now }
    {
        edges <= self.near.len()
            && edges <= self.crossings.len()
            && edges < self.ranges.len()
            && self.count <= self.ranges.len()
    }

    /// Begins with the row at height `top`, and goes no farther down than to height `bottom`. Heights are in steps.
    pub fn begin(&mut self, edges: &[Stroke], dots: Dots, bottom: i64, top: i64)
        requires room { HasRoomFor (length edges.now) self.old }
        ensures follows { Follows dots.resolution edges.entry.now bottom top self.new }
        ensures room { (count : ℕ) → HasRoomFor count self.old → HasRoomFor count self.new }
    {
        self.end = gather(edges, dots, bottom, top, self.near.as_mut_slice());
        self.waiting = self.end;
    }

    /// Finds the columns of the next row, which is at this height, whose centres are inside the area. The row after it is the one
    /// below.
    pub fn next_row(&mut self, rule: Rule, dots: Dots, height: i64, columns: u32)
        requires follows { IsSweeping dots.resolution height self.old }
        requires near { nat_abs height ≤ 2 ^ 34 }
        ensures inside { (edges : List Segment) (low : ℤ) → Follows dots.resolution edges low height self.old → low ≤ℤ height →
            (k : ℕ) → k < columns →
            is_in_any (found_in self.new) k ≡ is_inside_area rule dots.resolution edges (centre_of_column k) height }
        ensures ranges_in { All (IsRange columns) (found_in self.new) }
        ensures next { (edges : List Segment) (low : ℤ) → Follows dots.resolution edges low height self.old →
            Follows dots.resolution edges low (height -ℤ pos 16256) self.new }
        ensures room { (count : ℕ) → HasRoomFor count self.old → HasRoomFor count self.new }
    {
        self.waiting = start_among(
            self.near.as_mut_slice(),
            self.waiting,
            self.end,
            dots,
            height,
        );
        let live = &self.near.as_slice()[self.waiting..self.end];
        let count = cross(live, dots, height, columns, self.crossings.as_mut_slice());
        let lower = height - 16256;
        let kept = descend_among(
            self.near.as_mut_slice(),
            self.waiting,
            self.end,
            dots,
            lower,
        );
        self.end = self.waiting + kept;
        let crossings = &self.crossings.as_slice()[..count];
        self.count = divide(rule, crossings, columns, self.ranges.as_mut_slice());
    }

    /// The columns that were found, in ranges.
    pub fn ranges(&self) -> &[ColumnRange]
        ensures { result.now ≡ found_in self.now }
    {
        let ranges = self.ranges.as_slice();
        &ranges[..self.count.min(ranges.len())]
    }
}

// Writes the edges that rows from one height down to another may pass, the highest last, and answers how many there are.
fn gather(edges: &[Stroke], dots: Dots, bottom: i64, top: i64, room: &mut [SweptEdge]) -> usize
    requires room { length edges.now ≤ length room.old }
    ensures are { AreSwept dots.resolution edges.entry.now bottom top (take result room.new) [] }
    ensures few { result ≤ length edges.entry.now }
    ensures same { length room.new ≡ length room.old }
{
    let count = edges_near(edges, dots, bottom, top, room);
    room[..count].sort_unstable_by_key(|edge| edge.by);
    count
}

// The same in the order of the polygon.
fn edges_near(edges: &[Stroke], dots: Dots, bottom: i64, top: i64, room: &mut [SweptEdge]) -> usize
    requires room { length edges.now ≤ length room.old }
    ensures are { AreNear dots.resolution edges.entry.now bottom top (take result room.new) }
    ensures few { result ≤ length edges.entry.now }
    ensures same { length room.new ≡ length room.old }
{
    let mut count = 0;
    for edge in edges {
        if let Some(near) = swept(edge, dots, bottom, top) {
            room[count] = near;
            count += 1;
        }
    }
    count
}

// Comes to the row at a height with the edges before `end`, of which the first ones wait. Answers how many wait still.
fn start_among(near: &mut [SweptEdge], waiting: usize, end: usize, dots: Dots, height: i64) -> usize
    requires sweeping { IsSweepingAmong dots.resolution height near.old waiting end }
    requires near { nat_abs height ≤ 2 ^ 34 }
    ensures swept { (edges : List Segment) (low : ℤ)
        → AreSwept dots.resolution edges low height (take waiting near.old) (drop waiting (take end near.old))
        → AreSwept dots.resolution edges low height (take result near.new) (drop result (take end near.new)) }
    ensures below { AreBelow dots.resolution height (take result near.new) }
    ensures few { result ≤ waiting }
    ensures same { length near.new ≡ length near.old }
{
    start(&mut near[..end], waiting, dots, height)
}

// Comes to the row at a height with edges of which the first ones wait, and sorts those that it has come to if they are more now.
// Answers how many wait still.
fn start(near: &mut [SweptEdge], waiting: usize, dots: Dots, height: i64) -> usize
    requires sweeping { IsSweepingOver dots.resolution height near.old waiting }
    requires near { nat_abs height ≤ 2 ^ 34 }
    ensures swept { (edges : List Segment) (low : ℤ)
        → AreSwept dots.resolution edges low height (take waiting near.old) (drop waiting near.old)
        → AreSwept dots.resolution edges low height (take result near.new) (drop result near.new) }
    ensures below { AreBelow dots.resolution height (take result near.new) }
    ensures few { result ≤ waiting }
    ensures same { length near.new ≡ length near.old }
{
    let left = come(near, waiting, dots, height);
    if left < waiting {
        near[left..].sort_unstable_by_key(|edge| edge.column);
    }
    left
}

// The same, but for the order.
fn come(near: &mut [SweptEdge], waiting: usize, dots: Dots, height: i64) -> usize
    requires sweeping { IsSweepingOver dots.resolution height near.old waiting }
    requires near { nat_abs height ≤ 2 ^ 34 }
    ensures swept { (edges : List Segment) (low : ℤ)
        → AreSwept dots.resolution edges low height (take waiting near.old) (drop waiting near.old)
        → AreSwept dots.resolution edges low height (take result near.new) (drop result near.new) }
    ensures below { AreBelow dots.resolution height (take result near.new) }
    ensures few { result ≤ waiting }
    ensures same { length near.new ≡ length near.old }
{
    let mut left = waiting;
    'edges: while left > 0 {
        let edge = near[left - 1];
        if scaled(dots, edge.by) <= height {
            break;
        }
        near[left - 1] = edge.placed(dots, height);
        left -= 1;
    }
    left
}

// Writes the crossings of a row with edges from the left to the right, and answers how many there are.
fn cross(near: &[SweptEdge], dots: Dots, height: i64, columns: u32, room: &mut [Crossing]) -> usize
    requires room { length near.now ≤ length room.old }
    requires in_row { All (IsInRow dots.resolution height) near.now }
    ensures are { AreCrossings dots.resolution height columns near.entry.now (take result room.new) }
    ensures ordered { AreOrdered 0 (take result room.new) }
    ensures few { result ≤ length near.entry.now }
    ensures same { length room.new ≡ length room.old }
{
    let count = crossings_of(near, dots, height, columns, room);
    room[..count].sort_unstable_by_key(|crossing| crossing.column);
    count
}

// The same in the order of the edges.
fn crossings_of(
    near: &[SweptEdge],
    dots: Dots,
    height: i64,
    columns: u32,
    room: &mut [Crossing],
) -> usize
    requires room { length near.now ≤ length room.old }
    requires in_row { All (IsInRow dots.resolution height) near.now }
    ensures are { AreCrossings dots.resolution height columns near.entry.now (take result room.new) }
    ensures few { result ≤ length near.entry.now }
    ensures same { length room.new ≡ length room.old }
{
    let mut count = 0;
    for edge in near {
        if let Some(crossing) = crossing_of(edge, dots, height, columns) {
            room[count] = crossing;
            count += 1;
        }
    }
    count
}

// Goes on to the row below, at this height, with the edges before `end` that do not wait, and answers how many of them are not
// above it.
fn descend_among(
    near: &mut [SweptEdge],
    waiting: usize,
    end: usize,
    dots: Dots,
    height: i64,
) -> usize
    requires order { waiting ≤ end }
    requires few { end ≤ length near.old }
    requires somewhere { All IsSomewhere (drop waiting (take end near.old)) }
    ensures waiting { take waiting near.new ≡ take waiting near.old }
    ensures below { IsPermutation (map below (filter (reaches_down dots.resolution height) (drop waiting (take end near.old))))
        (drop waiting (take (waiting + result) near.new)) }
    ensures few { waiting + result ≤ end }
    ensures same { length near.new ≡ length near.old }
{
    descend(&mut near[waiting..end], dots, height)
}

// Goes on to the row below, at this height, with the edges that are not above it, in any order. Answers how many they are.
fn descend(near: &mut [SweptEdge], dots: Dots, height: i64) -> usize
    requires { All IsSomewhere near.old }
    ensures below { IsPermutation (map below (filter (reaches_down dots.resolution height) near.old)) (take result near.new) }
    ensures few { result ≤ length near.old }
    ensures same { length near.new ≡ length near.old }
{
    let kept = descend_all(near, dots, height);
    settle(&mut near[..kept]);
    kept
}

// The same, in the order of the edges.
fn descend_all(near: &mut [SweptEdge], dots: Dots, height: i64) -> usize
    requires { All IsSomewhere near.old }
    ensures below { take result near.new ≡ map below (filter (reaches_down dots.resolution height) near.old) }
    ensures few { result ≤ length near.old }
    ensures same { length near.new ≡ length near.old }
{
    let mut kept = 0;
    for at in 0..near.len() {
        let edge = near[at];
        if scaled(dots, edge.ay) <= height {
            near[kept] = edge.below();
            kept += 1;
        }
    }
    kept
}

// Has neighbours change places that are in the wrong order, so that crossings are mostly in order before they are sorted.
fn settle(near: &mut [SweptEdge])
    ensures ordered { IsPermutation near.old near.new }
    ensures same { length near.new ≡ length near.old }
{
    for at in 1..near.len() {
        if near[at].column < near[at - 1].column {
            near.swap(at - 1, at);
        }
    }
}
