//! Areas, filled row by row.
ghost use Rattle.std.specs.Prelude.{◌≡◌, ℕ, ℤ, ◌+◌, ◌*◌, ◌<◌, ◌≤◌, ◌&&◌, cond, length, max, min, nat_eq, true, pos, ◌*ℤ◌};
ghost use Rattle.std.specs.List.{All};
ghost use Rattle.plot_page.specs.Resolutions.{columns_of, rows_of};
ghost use Rattle.areas.specs.Crossings.{IsRange, is_in, is_in_any};
ghost use Rattle.areas.specs.Sweeps.{HasRoomFor};
ghost use Rattle.stroke_raster.specs.Covers.{between, centre};
ghost use Rattle.stroke_raster.specs.PlacedAreas.{FollowsIn, IsFollowing, IsNear, fills};
ghost use Rattle.stroke_raster.specs.Slots.{greatest_row, least_row, tall};
ghost use Rattle.stroke_raster.specs.Spans.{holds};

use crate::canvas::Canvas;
use crate::extent::{doubled, extent_of, places_between};
use crate::pixel::{centre_of, is_between};
use crate::strip::Span;
use areas::{AreaSweep, ColumnRange};
use plot_page::{Dots, Page, Stroke, Window};
use polygons::Rule;

/// An area to fill: its edges, which of the places between them are inside, and the window in which it is seen, on a page.
#[derive(Clone, Copy)]
pub struct PlacedArea<'a> {
    pub edges: &'a [Stroke],
    pub rule: Rule,
    pub window: Window,
    pub page: Page,
    pub dots: Dots,
}

/// The rows of the box of a stroke and of edges in its window: the first one, and the one after the last.
pub fn rows_of_edges(stroke: &Stroke, edges: &[Stroke], page: &Page, dots: Dots) -> Span
    ensures low { result.low ≡ least_row stroke.now edges.now page.now dots }
    ensures end { result.end ≡ greatest_row stroke.now edges.now page.now dots }
    ensures within { result.end ≤ rows_of page.now dots }
{
    extent_of(&tall(stroke, edges), page, dots).rows
}

// A stroke, as tall as it and edges are together.
fn tall(stroke: &Stroke, edges: &[Stroke]) -> Stroke
    ensures { result ≡ tall stroke.now edges.now }
{
    if edges.is_empty() {
        return *stroke;
    }
    let mut low = stroke.ay.min(stroke.by);
    let mut high = stroke.ay.max(stroke.by);
    for edge in edges {
        low = edge.ay.min(edge.by).min(low);
        high = edge.ay.max(edge.by).max(high);
    }
    Stroke {
        ay: low,
        by: high,
        ..*stroke
    }
}

/// Fills the rows of an area that lie in a band, of which `rows` are those that it may fill, as the stroke at a position is painted.
pub fn fill_area<C: Canvas>(
    canvas: &mut C,
    sweep: &mut AreaSweep,
    area: &PlacedArea<'_>,
    rows: Span,
    band: Span,
    position: u32,
)
    requires sound { C.is_sound canvas.old }
    requires order { band.low ≤ band.end }
    requires height { C.height canvas.old + band.low ≡ band.end }
    requires on_page { band.end ≤ rows_of area.now.page area.now.dots }
    requires width { C.width canvas.old ≡ columns_of area.now.page area.now.dots }
    requires room { HasRoomFor (length area.now.edges.now) sweep.old }
    requires window { IsNear area.now.window }
    requires held { (row k : ℕ) → row < rows_of area.now.page area.now.dots → fills area.now row k ≡ true →
        (rows.low ≤ row) × (row < rows.end) }
    requires counted { 1 ≤ position }
    ensures sound { C.is_sound canvas.new }
    ensures height { C.height canvas.new ≡ C.height canvas.old }
    ensures width { C.width canvas.new ≡ C.width canvas.old }
    ensures pixels { (r k : ℕ) → r < C.height canvas.old → k < C.width canvas.old →
        C.pixel canvas.new r k ≡ cond (fills area.now (band.low + r) k) (C.mark position) (C.pixel canvas.old r k) }
    ensures room { (edges : ℕ) → HasRoomFor edges sweep.old → HasRoomFor edges sweep.new }
{
    let low = rows.low.max(band.low);
    let end = rows.end.min(band.end);
    if low >= end {
        return;
    }
    let top = centre_of(&area.page, area.dots, low, 0).y;
    let bottom = centre_of(&area.page, area.dots, end - 1, 0).y;
    sweep.begin(area.edges, area.dots, bottom, top);
    let columns = columns_in(area.window, &area.page, area.dots);
    for row in low..end {
        fill_row(canvas, sweep, area, columns, row, row - band.low, position);
    }
}

// Fills the next row of an area, in these columns, which is row `at` of the canvas.
fn fill_row<C: Canvas>(
    canvas: &mut C,
    sweep: &mut AreaSweep,
    area: &PlacedArea<'_>,
    columns: Span,
    row: u32,
    at: u32,
    position: u32,
)
    requires sound { C.is_sound canvas.old }
    requires at_in { at < C.height canvas.old }
    requires on_page { row < rows_of area.now.page area.now.dots }
    requires width { C.width canvas.old ≡ columns_of area.now.page area.now.dots }
    requires follows { IsFollowing area.now row sweep.old }
    requires window { IsNear area.now.window }
    requires order { columns.low ≤ columns.end }
    requires columns { (k : ℕ) → k < columns_of area.now.page area.now.dots → holds columns k
        ≡ between (pos area.now.dots.resolution *ℤ area.now.window.x0) (pos area.now.dots.resolution *ℤ area.now.window.x1)
        (pos ((2 * k + 1) * 8128)) }
    requires counted { 1 ≤ position }
    ensures sound { C.is_sound canvas.new }
    ensures height { C.height canvas.new ≡ C.height canvas.old }
    ensures width { C.width canvas.new ≡ C.width canvas.old }
    ensures pixels { (r k : ℕ) → r < C.height canvas.old → k < C.width canvas.old →
        C.pixel canvas.new r k ≡ cond (nat_eq r at && fills area.now row k) (C.mark position) (C.pixel canvas.old r k) }
    ensures follows { (bottom : ℤ) → FollowsIn area.now bottom row sweep.old → FollowsIn area.now bottom (row + 1) sweep.new }
    ensures room { (edges : ℕ) → HasRoomFor edges sweep.old → HasRoomFor edges sweep.new }
{
    let height = centre_of(&area.page, area.dots, row, 0).y;
    let count = area.dots.columns(&area.page);
    sweep.next_row(area.rule, area.dots, height, count);
    if !is_between(area.window.y0, area.window.y1, area.dots, height) {
        return;
    }
    fill_ranges(canvas, sweep.ranges(), columns, at, position);
}

// Fills these columns of a row of a canvas, where ranges of columns hold them.
fn fill_ranges<C: Canvas>(
    canvas: &mut C,
    ranges: &[ColumnRange],
    columns: Span,
    at: u32,
    position: u32,
)
    requires sound { C.is_sound canvas.old }
    requires at_in { at < C.height canvas.old }
    requires ranges { All (IsRange (C.width canvas.old)) ranges.now }
    requires order { columns.low ≤ columns.end }
    requires counted { 1 ≤ position }
    ensures sound { C.is_sound canvas.new }
    ensures height { C.height canvas.new ≡ C.height canvas.old }
    ensures width { C.width canvas.new ≡ C.width canvas.old }
    ensures pixels { (r k : ℕ) → r < C.height canvas.old → k < C.width canvas.old →
        C.pixel canvas.new r k
        ≡ cond (nat_eq r at && (holds columns k && is_in_any ranges.entry.now k)) (C.mark position) (C.pixel canvas.old r k) }
{
    for range in ranges {
        let span = common(*range, columns);
        canvas.fill(at, span, position);
    }
}

// The columns of a range that a span holds.
fn common(range: ColumnRange, columns: Span) -> Span
    ensures order { result.low ≤ result.end }
    ensures end { result.end ≤ max range.end range.first }
    ensures held { (k : ℕ) → holds result k ≡ (holds columns k && is_in range k) }
{
    let low = range.first.max(columns.low);
    let end = range.end.min(columns.end);
    if low < end {
        Span { low, end }
    } else {
        Span { low: 0, end: 0 }
    }
}

// The columns whose centres are in a window.
fn columns_in(window: Window, page: &Page, dots: Dots) -> Span
    requires { IsNear window }
    ensures order { result.low ≤ result.end }
    ensures columns { (k : ℕ) → k < columns_of page.now dots → holds result k
        ≡ between (pos dots.resolution *ℤ window.x0) (pos dots.resolution *ℤ window.x1) (pos ((2 * k + 1) * 8128)) }
{
    let low = doubled(dots.resolution, window.x0);
    let high = doubled(dots.resolution, window.x1);
    places_between(low, high, dots.columns(page))
}
