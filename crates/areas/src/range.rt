//! Ranges of columns, and those of a row that are inside an area.
ghost use Rattle.std.specs.Prelude.{◌≡◌, ℕ, ◌+◌, ◌≤◌, ◌<◌, ◌++◌, length, take};
ghost use Rattle.std.specs.List.{All};
ghost use Rattle.areas.specs.Crossings.{AreOrdered, IsRange, is_in_any, is_inside_at, range_if};

use crate::crossing::Crossing;
use polygons::Rule;

/// The columns from `first` on below `end`.
#[derive(Clone, Copy, Debug, PartialEq, Eq)]
pub struct ColumnRange {
    pub first: u32,
    pub end: u32,
}

/// Writes the ranges of columns that are inside by these crossings, and answers how many there are.
pub fn divide(rule: Rule, crossings: &[Crossing], columns: u32, room: &mut [ColumnRange]) -> usize
    requires ordered { AreOrdered 0 crossings.now }
    requires within { All (λ c. c.column ≤ columns) crossings.now }
    requires room { length crossings.now < length room.old }
    ensures inside { (k : ℕ) → k < columns → is_in_any (take result room.new) k ≡ is_inside_at rule crossings.entry.now k }
    ensures ranges { All (IsRange columns) (take result room.new) }
    ensures most { result ≤ length crossings.entry.now + 1 }
    ensures same { length room.new ≡ length room.old }
{
    let mut upward = 0;
    let mut downward = 0;
    let mut first = 0;
    let mut count = 0;
    for crossing in crossings {
        let is_inside = rule.is_inside(upward, downward);
        count = add_range(room, count, is_inside, first, crossing.column);
        upward += usize::from(crossing.is_upward);
        downward += usize::from(!crossing.is_upward);
        first = crossing.column;
    }
    let is_inside = rule.is_inside(upward, downward);
    add_range(room, count, is_inside, first, columns)
}

// Writes a range after `count` others if its columns are inside and there are any, and answers how many ranges there are.
fn add_range(room: &mut [ColumnRange], count: usize, is_inside: bool, first: u32, end: u32) -> usize
    requires { count < length room.old }
    ensures added { take result room.new ≡ take count room.old ++ range_if is_inside first end }
    ensures most { result ≤ count + 1 }
    ensures same { length room.new ≡ length room.old }
{
    if !is_inside || end <= first {
        return count;
    }
    room[count] = ColumnRange { first, end };
    count + 1
}
