//! The edges of the strip along a stroke, from row to row.
//!
//! In a row that is far from both ends of a stroke the run is all of the strip along the stroke's line. From
//! each such row to the next the strip's edges move by the same distance. They are kept in parts of a column,
//! rounded. Only if one of them is within the rounding of a pixel's centre, tests find the run.
ghost use Rattle.std.specs.Prelude.{◌≡◌, ℕ, ◌+◌, ◌-◌, ◌*◌, ◌<◌, ◌≤◌, ◌^◌, true, false, cond, nat_abs, pos, ◌≤ℤ◌, IfSome};
ghost use Rattle.plot_page.specs.Resolutions.{columns_of, rows_of};
ghost use Rattle.stroke_raster.specs.Boxes.{in_box};
ghost use Rattle.stroke_raster.specs.Covers.{covers};
ghost use Rattle.plot_page.specs.declared.page.Page.{Page};
ghost use Rattle.stroke_raster.specs.declared.trace.Trace.{Trace};
ghost use Rattle.stroke_raster.specs.Edges.{AreEdges, AreFitted, IsBeside, IsClear, IsClearSpan, IsEdge, IsPlace};

use crate::extent::{Sides, places_between};
use crate::far::{wide_cross, wide_turned};
use crate::pixel::{centre_of, drawn_width_of, squared_length, top_of, way_between};
use crate::run::run;
use crate::strip::{Span, turned};
use crate::trace::Trace;
use plot_page::Page;

// How many more whole columns a place has than pixels of the row lie up to it: places are counted from
// 2^30 columns before the first pixel.
const BEFORE: u64 = (1 << 30) - 1;

/// In fewer rows the edges cost more than they save.
pub const MANY: u32 = 16;

/// The edges of a stroke's strip in some rows. A column has 2^32 parts.
#[derive(Clone, Copy, Debug)]
pub struct Edges {
    /// The rows.
    pub rows: Span,
    /// The far edge in the first row, in parts from 2^30 columns before the box.
    pub end: u64,
    /// By how many parts the edges move from a row to the next.
    pub pace: u64,
    /// Whether they move to the left.
    pub falls: bool,
    /// The strip's width in a row, in parts.
    pub width: u64,
    /// An edge within this many parts of a pixel's centre may in truth lie on its other side.
    pub margin: u32,
}

impl Edges {
    /// The far edge in the next row, if there is one.
    #[inline(always)]
    pub fn next(&self, at: u64) -> u64
        requires low { self.now.pace ≤ at }
        requires high { at + self.now.pace < 2 ^ 64 }
        ensures { (t : Trace) (page : Page) (from row : ℕ) → IsEdge t page from self.now row at →
            row + 1 < self.now.rows.end → IsEdge t page from self.now (row + 1) result }
    {
        if self.falls {
            at - self.pace
        } else {
            at + self.pace
        }
    }
}

/// The edges of a stroke's strip in those of some rows that only its long sides bound, or in none.
/// Places are counted from column `from` on.
#[inline(never)]
pub fn edges_of(trace: &Trace<'_>, page: &Page, rows: Span, from: u32) -> Edges
    requires order { rows.low ≤ rows.end }
    requires rows_in { rows.end ≤ rows_of page.now trace.now.dots }
    requires from_in { from ≤ columns_of page.now trace.now.dots }
    ensures low { rows.low ≤ result.rows.low }
    ensures order { result.rows.low ≤ result.rows.end }
    ensures end { result.rows.end ≤ rows.end }
    ensures edges { AreEdges trace.now page.now from result }
{
    let beside = beside_rows(trace, page, rows);
    if beside.end - beside.low >= MANY {
        if let Some(edges) = edges_in(trace, page, beside, from) {
            return edges;
        }
    }
    no_edges(beside.end)
}

// The edges in no row.
fn no_edges(end: u32) -> Edges
    ensures low { result.rows.low ≡ end }
    ensures end { result.rows.end ≡ end }
{
    Edges {
        rows: Span { low: end, end },
        end: 0,
        pace: 0,
        falls: false,
        width: 0,
        margin: 0,
    }
}

// Those of some rows that are farther than half of the drawn width above the stroke's lower end and below
// its upper one.
fn beside_rows(trace: &Trace<'_>, page: &Page, rows: Span) -> Span
    requires order { rows.low ≤ rows.end }
    requires rows_in { rows.end ≤ rows_of page.now trace.now.dots }
    ensures low { rows.low ≤ result.low }
    ensures order { result.low ≤ result.end }
    ensures end { result.end ≤ rows.end }
    ensures beside { (row : ℕ) → result.low ≤ row → row < result.end → IsBeside trace.now page.now row }
{
    let sides = beside_sides(trace, page);
    let places = places_between(sides.low, sides.high, trace.dots.rows(page));
    let low = places.low.max(rows.low).min(rows.end);
    Span {
        low,
        end: places.end.min(rows.end).max(low),
    }
}

// Between which numbers the double of a row's centre, measured from the page's top, lies in such rows.
fn beside_sides(trace: &Trace<'_>, page: &Page) -> Sides
    ensures low_small { nat_abs result.low ≤ 2 ^ 50 }
    ensures high_small { nat_abs result.high ≤ 2 ^ 50 }
    ensures beside { (row : ℕ) → result.low ≤ℤ pos ((2 * row + 1) * 16256) → pos ((2 * row + 1) * 16256) ≤ℤ result.high →
        IsBeside trace.now page.now row }
{
    let top = 2 * top_of(page, trace.dots);
    let first = top - 2 * trace.first.y;
    let last = first - 2 * trace.scaled_course.y;
    let width = i64::from(drawn_width_of(trace.stroke, trace.dots) + 1);
    if trace.course.y < 0 {
        return Sides {
            low: first + width,
            high: last - width,
        };
    }
    Sides {
        low: last + width,
        high: first - width,
    }
}

// The edges in some rows, if the stroke is not level and the numbers fit.
fn edges_in(trace: &Trace<'_>, page: &Page, rows: Span, from: u32) -> Option<Edges>
    requires some { rows.low < rows.end }
    requires rows_in { rows.end ≤ rows_of page.now trace.now.dots }
    requires from_in { from ≤ columns_of page.now trace.now.dots }
    requires beside { (row : ℕ) → rows.low ≤ row → row < rows.end → IsBeside trace.now page.now row }
    ensures rows { IfSome result (λ e. e.rows ≡ rows) }
    ensures edges { IfSome result (λ e. AreEdges trace.now page.now from e) }
{
    let slope = trace.slope;
    let under = slope.length - slope.length / 32768;
    let narrow = u64::from(under.saturating_sub(2));
    if slope.step == 0 || narrow * narrow > squared_length(trace.course).unsigned_abs() {
        return None;
    }
    let most = slope.most.unsigned_abs();
    let inner = u64::from(drawn_width_of(trace.stroke, trace.dots)) * narrow;
    let start = way_between(trace.first, centre_of(page, trace.dots, rows.low, from));
    let beside = wide_turned(2 * wide_cross(trace.course, start), trace.course.y);
    let drift = turned(trace.course.x, trace.course.y);
    let slower = parts_of(32512 * drift.unsigned_abs(), slope.step);
    let end = place_of(beside + i128::from(slope.most), slope.step)?;
    let falls = 0 < drift;
    let moves = Moves {
        gap: parts_of(most.saturating_sub(inner), slope.step) + 1,
        width: parts_of(2 * most, slope.step),
        pace: rounded(slower, falls),
        end,
    };
    fitted(rows, falls, moves)
}

// The numbers of edges, as large as they come.
#[derive(Clone, Copy)]
struct Moves {
    gap: u128,
    width: u128,
    pace: u128,
    end: u128,
}

// A number divided by a step, in parts.
fn parts_of(z: u64, step: u64) -> u128
    requires { 0 < step }
    ensures low { result * step ≤ 2 ^ 32 * z }
    ensures high { 2 ^ 32 * z < (result + 1) * step }
    ensures small { result ≤ 2 ^ 96 }
{
    4_294_967_296 * u128::from(z) / u128::from(step)
}

// A way in parts, rounded up if the edges fall.
fn rounded(slower: u128, falls: bool) -> u128
    requires { slower ≤ 2 ^ 96 }
    ensures { result ≡ cond falls (slower + 1) slower }
{
    if falls { slower + 1 } else { slower }
}

// The place of a number divided by a step, in parts from 2^30 columns before the first on, if it is not
// farther to the left.
fn place_of(z: i128, step: u64) -> Option<u128>
    requires z_in { nat_abs z ≤ 2 ^ 71 }
    requires step_in { 0 < step }
    requires step_small { step ≤ 2 ^ 43 }
    ensures { IfSome result (λ at. IsPlace z step at) }
{
    let edge = 4_294_967_296 * z + 4_611_686_018_427_387_904 * i128::from(step);
    if edge < 0 {
        return None;
    }
    Some(edge.unsigned_abs() / u128::from(step))
}

// The edges with these numbers, if they fit and stay within them in all rows.
fn fitted(rows: Span, falls: bool, moves: Moves) -> Option<Edges>
    requires { rows.low < rows.end }
    ensures { IfSome result (λ e. AreFitted rows falls moves e) }
{
    if moves.gap > 1 << 29 || moves.width > 1 << 60 {
        return None;
    }
    if moves.pace > 1 << 60 || moves.end > 1 << 63 {
        return None;
    }
    let count = u128::from(rows.end - rows.low);
    let margin = moves.gap + count + 2;
    let way = count * moves.pace;
    if margin > 1 << 30 || (1 << 61) + way > moves.end || moves.end + way > 1 << 63 {
        return None;
    }
    Some(Edges {
        rows,
        end: moves.end as u64,
        pace: moves.pace as u64,
        falls,
        width: moves.width as u64,
        margin: margin as u32,
    })
}

/// The run of `run::run` in one of the rows, whose far edge is `at`.
#[inline(always)]
pub fn beside_run(
    trace: &Trace<'_>,
    page: &Page,
    row: u32,
    from: u32,
    length: u32,
    edges: &Edges,
    at: u64,
) -> Span
    requires row_in { row < rows_of page.now trace.now.dots }
    requires columns_in { from + length ≤ columns_of page.now trace.now.dots }
    requires boxed { (i : ℕ) → i < length → in_box trace.now.stroke.now page.now trace.now.dots row (from + i) ≡ true }
    requires edge { IsEdge trace.now page.now from edges.now row at }
    ensures order { result.low ≤ result.end }
    ensures high { result.end ≤ length }
    ensures before { (i : ℕ) → i < result.low →
        covers trace.now.stroke.now page.now trace.now.dots row (from + i) ≡ false }
    ensures inside { (i : ℕ) → result.low ≤ i → i < result.end →
        covers trace.now.stroke.now page.now trace.now.dots row (from + i) ≡ true }
    ensures after { (i : ℕ) → result.end ≤ i → i < length →
        covers trace.now.stroke.now page.now trace.now.dots row (from + i) ≡ false }
{
    let span = clear_span(at - edges.width, at, edges.margin, length);
    if span.low < span.end {
        span
    } else {
        tested_run(trace, page, row, from, length)
    }
}

// The run, by tests.
#[inline(never)]
fn tested_run(trace: &Trace<'_>, page: &Page, row: u32, from: u32, length: u32) -> Span
    requires row_in { row < rows_of page.now trace.now.dots }
    requires columns_in { from + length ≤ columns_of page.now trace.now.dots }
    requires boxed { (i : ℕ) → i < length → in_box trace.now.stroke.now page.now trace.now.dots row (from + i) ≡ true }
    ensures order { result.low ≤ result.end }
    ensures high { result.end ≤ length }
    ensures before { (i : ℕ) → i < result.low →
        covers trace.now.stroke.now page.now trace.now.dots row (from + i) ≡ false }
    ensures inside { (i : ℕ) → result.low ≤ i → i < result.end →
        covers trace.now.stroke.now page.now trace.now.dots row (from + i) ≡ true }
    ensures after { (i : ℕ) → result.end ≤ i → i < length →
        covers trace.now.stroke.now page.now trace.now.dots row (from + i) ≡ false }
{
    run(trace, page, row, from, length)
}

// The columns after the near edge up to the far one, or none if one of the edges is not clear of the
// centres of pixels.
#[inline(always)]
fn clear_span(near: u64, far: u64, margin: u32, length: u32) -> Span
    requires { margin ≤ 2 ^ 30 }
    ensures order { result.low ≤ result.end }
    ensures clear { result.low < result.end → IsClearSpan margin near far length result }
{
    let low = (near >> 32).saturating_sub(BEFORE);
    let end = (far >> 32).saturating_sub(BEFORE).min(u64::from(length));
    if is_clear(near, margin) && is_clear(far, margin) && low < end {
        Span {
            low: low as u32,
            end: end as u32,
        }
    } else {
        Span { low: 0, end: 0 }
    }
}

// Whether a place is clear of both ends of its column.
#[inline(always)]
fn is_clear(place: u64, margin: u32) -> bool
    requires { margin ≤ 2 ^ 30 }
    ensures { result ≡ true → IsClear margin place }
{
    let parts = (place % (1 << 32)) as u32;
    parts.wrapping_sub(margin) < u32::MAX - 2 * margin
}
