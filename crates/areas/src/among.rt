//! The areas among some strokes.
ghost use Rattle.std.specs.Prelude.{ℕ, ◌≡◌, ◌-◌, ◌≤◌, [], ◌∷◌, IfNone, IfSome, IsTrue, length, drop, take};
ghost use Rattle.std.specs.List.{All};
ghost use Rattle.areas.specs.Cuts.{count_to};
ghost use Rattle.areas.specs.Places.{IsPlace};
ghost use Rattle.areas.specs.Shapes.{AreApart, all_counted, areas_between, beginning_at, counted, edge_count, ending_at};
ghost use Rattle.areas.specs.Unique.{AreApart-prop};

use crate::area::Area;

/// The areas among some strokes, each of which begins after the one before it has ended.
#[derive(Clone, Copy)]
pub struct Areas<'a> {
    list: &'a [Area],
    // How many strokes there are before those among which these areas are.
    before: usize,
    ghost apart: { AreApart before list.now } by { AreApart-prop before list.now },
}

impl<'a> Areas<'a> {
    ghost use Rattle.areas.specs.Views.{areas_in};

    /// No areas.
    pub fn none() -> Areas<'a>
        ensures { areas_in result ≡ [] }
    {
        Areas {
            list: &[],
            before: 0,
        }
    }

    /// All areas of a list of strokes.
    pub fn all(list: &'a [Area]) -> Areas<'a>
        requires { AreApart 0 list.now }
        ensures { areas_in result ≡ list.entry.now }
    {
        Areas { list, before: 0 }
    }

    /// Those of a list of strokes that begin after the first `at` strokes, and before there are `end` of them, by the strokes
    /// after the first `at`.
    pub fn between(list: &'a [Area], at: usize, end: usize) -> Areas<'a>
        requires { AreApart 0 list.now }
        ensures { areas_in result ≡ all_counted at (areas_between at end list.entry.now) }
    {
        let list = areas_to(areas_from(list, at), end);
        Areas { list, before: at }
    }

    /// How many they are.
    pub fn count(&self) -> usize
        ensures { result ≡ length (areas_in self.now) }
    {
        self.list.len()
    }

    /// How many edges they have together.
    pub fn edge_count(&self) -> usize
        ensures { result ≡ edge_count (areas_in self.now) }
    {
        let mut count = 0;
        for area in self.list {
            count += area.end.saturating_sub(area.first);
        }
        count
    }

    /// The most edges that one of them has, or 0 if there is none.
    pub fn most_edges(&self) -> usize
        ensures enough { All (λ a. a.end - a.first ≤ result) (areas_in self.now) }
        ensures least { (n : ℕ) → All (λ a. a.end - a.first ≤ n) (areas_in self.now) → result ≤ n }
    {
        let mut most = 0;
        for area in self.list {
            most = area.end.saturating_sub(area.first).max(most);
        }
        most
    }

    /// The first of them, and the others.
    #[inline(always)]
    pub fn split_first(&self) -> Option<(Area, Areas<'a>)>
        ensures some { IfSome result (λ it. areas_in self.now ≡ it.0 ∷ areas_in it.1) }
        ensures none { IfNone result (areas_in self.now ≡ []) }
    {
        let (area, others) = self.list.split_first()?;
        let rest = Areas {
            list: others,
            before: self.before,
        };
        Some((counted(*area, self.before), rest))
    }

    /// The area whose last edge is stroke number `end`. `near` is where it is looked for first, and then where it is, or would be:
    /// who asks for one number after another finds most areas there, and need not search.
    #[inline(always)]
    pub fn ending_at(&self, end: usize, near: &mut usize) -> Option<Area>
        ensures { result ≡ ending_at end (areas_in self.now) }
    {
        if self.list.is_empty() {
            return None;
        }
        self.ending_near(end, near)
    }

    // The same, whether there are areas or not.
    #[inline(never)]
    fn ending_near(&self, end: usize, near: &mut usize) -> Option<Area>
        ensures { result ≡ ending_at end (areas_in self.now) }
    {
        let number = end as u128 + self.before as u128;
        let at = self.place_near(number, *near);
        *near = at;
        if at < self.list.len() && self.list[at].end as u128 == number {
            return Some(counted(self.list[at], self.before));
        }
        None
    }

    // Which areas end before a number: those before this place.
    fn place_near(&self, number: u128, near: usize) -> usize
        ensures { IsPlace number self.now.list.now result }
    {
        if self.is_place(number, near) {
            return near;
        }
        let next = near.saturating_add(1);
        if self.is_place(number, next) {
            return next;
        }
        match self
            .list
            .binary_search_by_key(&number, |area| area.end as u128)
        {
            Ok(at) => at,
            Err(at) => at,
        }
    }

    // Whether the areas before a place end before a number, and the others do not.
    #[inline(always)]
    fn is_place(&self, number: u128, at: usize) -> bool
        ensures { IsTrue result → IsPlace number self.now.list.now at }
    {
        if at > self.list.len() {
            return false;
        }
        if at > 0 && self.list[at - 1].end as u128 >= number {
            return false;
        }
        at == self.list.len() || number <= self.list[at].end as u128
    }

    /// The area whose first edge comes after so many strokes.
    #[inline(always)]
    pub fn beginning_at(&self, first: usize) -> Option<Area>
        ensures { result ≡ beginning_at first (areas_in self.now) }
    {
        if self.list.is_empty() {
            return None;
        }
        self.search_first(first)
    }

    // The same, whether there are areas or not.
    #[inline(never)]
    fn search_first(&self, first: usize) -> Option<Area>
        ensures { result ≡ beginning_at first (areas_in self.now) }
    {
        let number = first as u128 + self.before as u128;
        match self
            .list
            .binary_search_by_key(&number, |area| area.first as u128)
        {
            Ok(at) => Some(counted(self.list[at], self.before)),
            Err(_) => None,
        }
    }
}

/// Keeps the areas of a list of strokes that begin after the first `at` strokes, and before there are `end` of them, and counts
/// their edges by the strokes after the first `at`.
pub fn keep_areas(areas: &mut Vec<Area>, at: usize, end: usize)
    ensures { areas.new.items ≡ all_counted at (areas_between at end areas.old.items) }
{
    areas.retain(|area| at <= area.first);
    areas.retain(|area| area.first < end);
    count_all(areas.as_mut_slice(), at);
}

// Counts areas by the strokes after the first `before`.
fn count_all(areas: &mut [Area], before: usize)
    ensures { areas.new ≡ all_counted before areas.old }
{
    for area in areas.iter_mut() {
        *area = counted(*area, before);
    }
}

// An area by the strokes of a sheet, before which there are so many others.
fn counted(area: Area, before: usize) -> Area
    ensures { result ≡ counted before area }
{
    Area {
        first: area.first.saturating_sub(before),
        end: area.end.saturating_sub(before),
        rule: area.rule,
    }
}

// The areas from the first one on before which there are so many strokes, and those before it.
fn areas_from(areas: &[Area], at: usize) -> &[Area]
    ensures { result.now ≡ drop (count_to at areas.entry.now) areas.entry.now }
{
    &areas[count_to(areas, at)..]
}

fn areas_to(areas: &[Area], end: usize) -> &[Area]
    ensures { result.now ≡ take (count_to end areas.entry.now) areas.entry.now }
{
    &areas[..count_to(areas, end)]
}

// How many areas there are up to the first one before which there are so many strokes.
fn count_to(areas: &[Area], end: usize) -> usize
    ensures value { result ≡ count_to end areas.now }
    ensures most { result ≤ length areas.now }
{
    let mut rest = areas;
    let mut count = 0;
    'areas: while let [area, others @ ..] = rest {
        if area.first >= end {
            break;
        }
        count += 1;
        rest = others;
    }
    count
}
