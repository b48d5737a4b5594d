//! Paints a band along its chains: each stroke that reaches the band, in the order of the list.
//!
//! The strokes are named by slots, their positions in the list, counted from 1. An area belongs to the slot of its last edge,
//! whose rows are then those of all its edges. Between two bands slot
//! 0 leads to the first stroke that began in an earlier band and goes on, and each of these to the
//! next of them. The head of a later band leads to the first stroke that begins in it, and each of
//! those to the next that does. The number after the last slot is the end of each chain.
ghost use Rattle.std.specs.Prelude.{◌≡◌, ℕ, ◌+◌, ◌/◌, ◌<◌, ◌≤◌, cond, nat_eq, nat_lt, length, get_or, set, min};
ghost use Rattle.plot_page.specs.Resolutions.{rows_of};
ghost use Rattle.areas.specs.Sweeps.{HasRoomFor};
ghost use Rattle.areas.specs.Shapes.{edges_of};
ghost use Rattle.areas.specs.Views.{areas_in};
ghost use Rattle.stroke_raster.specs.Boxes.{BoxHolds, box_pixels, in_box};
ghost use Rattle.stroke_raster.specs.Painters.{HasRoomForAll};
ghost use Rattle.stroke_raster.specs.Rows.{marked_in_rows};
ghost use Rattle.stroke_raster.specs.ShownShapes.{area_at, reaches_with, stroke_at};
ghost use Rattle.stroke_raster.specs.Scenes.{AreChained, IsNext, ShowsScene, scene_boxes, scene_rows, width_of};
ghost use Rattle.stroke_raster.specs.Slots.{band_of, end_row_at, greatest_row, least_row};
ghost use Rattle.stroke_raster.specs.Tests.{MOST_TESTS, reached_pixels};

use crate::canvas::Canvas;
use crate::extent::extent_of;
use crate::gauge::Gauge;
use crate::placed_area::{PlacedArea, fill_area, rows_of_edges};
use crate::scene::Scene;
use crate::strip::Span;
use areas::{Area, AreaSweep, Shapes};
use plot_page::Stroke;

// Moves on a chain that is at `slot`; any other chain stays where it is.
fn moved(at: u32, slot: u32, next: u32) -> u32
    ensures { result ≡ cond (nat_eq at slot) next at }
{
    if at == slot { next } else { at }
}

// Chains the slot after `tail`, the last one that goes on, if it goes on too. Returns the new tail.
fn keep(links: &mut [u32], tail: u32, slot: u32, goes: bool) -> u32
    requires { tail < length links.old }
    ensures links { links.new ≡ cond goes (set links.old tail slot) links.old }
    ensures tail { result ≡ cond goes slot tail }
{
    if goes {
        links[tail as usize] = slot;
        slot
    } else {
        tail
    }
}

// Paints the stroke of a slot, and what is inside of the area that ends with it, in a band of which `first` is the number of the first row
// on the page, and `past` that of the row after it. Returns the end of the rows of their boxes. The area is looked for at place `near`
// of the list, where the one of the next slot will be.
fn paint_slot<G: Gauge, C: Canvas>(
    gauge: &mut G,
    canvas: &mut C,
    sweep: &mut AreaSweep,
    scene: &Scene<'_>,
    slot: u32,
    first: u32,
    past: u32,
    near: &mut usize,
) -> u32
    requires slot_in { slot ≤ length scene.now.strokes.now }
    requires some { 1 ≤ slot }
    requires sound { C.is_sound canvas.old }
    requires height { C.height canvas.old + first ≡ past }
    requires rows_in { past ≤ rows_of scene.now.page scene.now.dots }
    requires width { C.width canvas.old ≡ width_of scene.now }
    requires boxed { BoxHolds (G.reaches gauge.old) }
    requires room { HasRoomFor (length (area_at scene.now.strokes.now (areas_in scene.now.areas) slot).strokes) sweep.old }
    ensures end { result ≡ end_row_at scene.now.strokes.now (areas_in scene.now.areas) scene.now.page scene.now.dots slot }
    ensures sound { C.is_sound canvas.new }
    ensures height { C.height canvas.new ≡ C.height canvas.old }
    ensures width { C.width canvas.new ≡ C.width canvas.old }
    ensures pixels { (r k : ℕ) → r < C.height canvas.old → k < C.width canvas.old → C.pixel canvas.new r k
        ≡ cond (reaches_with (G.reaches gauge.old) (stroke_at scene.now.strokes.now slot)
        (area_at scene.now.strokes.now (areas_in scene.now.areas) slot) scene.now.page scene.now.dots (first + r) k)
        (C.mark slot) (C.pixel canvas.old r k) }
    ensures room { (edges : ℕ) → HasRoomFor edges sweep.old → HasRoomFor edges sweep.new }
    ensures same { G.reaches gauge.new ≡ G.reaches gauge.old }
    ensures least { min (G.count gauge.old + reached_pixels
        (G.reaches gauge.old (stroke_at scene.now.strokes.now slot) scene.now.page scene.now.dots)
        first (C.height canvas.old) 0 (C.width canvas.old)) MOST_TESTS ≤ G.count gauge.new }
    ensures most { G.count gauge.new ≤ G.count gauge.old + box_pixels (λ s. in_box s scene.now.page scene.now.dots)
        (stroke_at scene.now.strokes.now slot) first (C.height canvas.old) (C.width canvas.old) }
    ensures grows { G.count gauge.old ≤ G.count gauge.new }
{
    let stroke = &scene.strokes[slot as usize - 1];
    let page = scene.page;
    let dots = scene.dots;
    let bottom = canvas.paint(gauge, stroke, &page, dots, first, slot);
    let Some(area) = scene.areas.ending_at(slot as usize, near) else {
        return bottom;
    };
    let placed = PlacedArea {
        edges: edges_in(scene, area),
        rule: area.rule,
        window: stroke.window,
        page,
        dots,
    };
    let rows = rows_of_edges(stroke, placed.edges, &page, dots);
    let band = Span {
        low: first,
        end: past,
    };
    fill_area(canvas, sweep, &placed, rows, band, slot);
    rows.end
}

// The edges of an area.
fn edges_in<'a>(scene: &Scene<'a>, area: Area) -> &'a [Stroke]
    ensures { result.now ≡ edges_of scene.now.strokes.now area }
{
    Shapes {
        strokes: scene.strokes,
        areas: scene.areas,
    }
    .edges(area)
}

/// Paints a band of `rows` rows on a canvas, and makes the chains of the next band. `first` is the number of
/// the band's first row on the page.
pub fn paint_band<G: Gauge, C: Canvas>(
    gauge: &mut G,
    canvas: &mut C,
    sweep: &mut AreaSweep,
    scene: &Scene<'_>,
    band: u32,
    first: u32,
    rows: u32,
    heads: &[u32],
    links: &mut [u32],
)
    requires next { IsNext scene.now band first rows heads.now links.old }
    requires sound { C.is_sound canvas.old }
    requires enough { rows ≤ C.height canvas.old }
    requires width { C.width canvas.old ≡ width_of scene.now }
    requires room { HasRoomForAll scene.now.strokes.now (areas_in scene.now.areas) sweep.old }
    ensures room { HasRoomForAll scene.now.strokes.now (areas_in scene.now.areas) sweep.new }
    ensures linked { AreChained scene.now (band + 1) heads.now links.new }
    ensures sound { C.is_sound canvas.new }
    ensures height { C.height canvas.new ≡ rows }
    ensures width { C.width canvas.new ≡ C.width canvas.old }
    ensures pixels { ShowsScene (C.pixel canvas.new) C.mark (G.reaches gauge.old) scene.now first rows }
    ensures same { G.reaches gauge.new ≡ G.reaches gauge.old }
    ensures least { min (G.count gauge.old + marked_in_rows
        (scene_rows (G.reaches gauge.old) scene.now first rows)) MOST_TESTS ≤ G.count gauge.new }
    ensures most { G.count gauge.new ≤ G.count gauge.old + scene_boxes scene.now first rows }
    ensures grows { G.count gauge.old ≤ G.count gauge.new }
{
    gauge.keeps_to_boxes();
    canvas.clear(rows);
    let end = scene.strokes.len() as u32 + 1;
    let past = first + scene.band_rows;
    let mut old = links[0];
    let mut new = heads[band as usize];
    let mut tail = 0;
    let mut near = 0;
    let mut slot = old.min(new);
    'slots: while slot < end {
        let next = links[slot as usize];
        old = moved(old, slot, next);
        new = moved(new, slot, next);
        let bottom = paint_slot(
            gauge,
            canvas,
            sweep,
            scene,
            slot,
            first,
            first + rows,
            &mut near,
        );
        tail = keep(links, tail, slot, past < bottom);
        slot = old.min(new);
    }
    links[tail as usize] = end;
}

// The band of a row, counted from the first row, in bands of `band_rows` rows. Most pages have few bands, and a
// comparison costs less than a division.
fn band_of_row(row: u32, band_rows: u32) -> u32
    requires { 1 ≤ band_rows }
    ensures { result ≡ row / band_rows }
{
    if row < band_rows { 0 } else { row / band_rows }
}

// The band in which the rows of a slot begin, or the number of bands.
fn band_of_slot(scene: &Scene<'_>, slot: u32, bands: u32, near: &mut usize) -> u32
    requires slot_in { slot ≤ length scene.now.strokes.now }
    requires some { 1 ≤ slot }
    ensures { result ≡ band_of scene.now.pens scene.now.strokes.now (areas_in scene.now.areas) scene.now.page scene.now.dots
        scene.now.first_row scene.now.band_rows bands slot }
{
    let stroke = &scene.strokes[slot as usize - 1];
    if !scene.pens.has(stroke.pen) {
        return bands;
    }
    let rows = rows_of_slot(scene, stroke, slot, near);
    let begin = rows.low.max(scene.first_row);
    if begin < rows.end {
        band_of_row(begin - scene.first_row, scene.band_rows)
    } else {
        bands
    }
}

// The rows of the stroke of a slot, and of the area that ends with it, which is looked for at place `near` of the list.
fn rows_of_slot(scene: &Scene<'_>, stroke: &Stroke, slot: u32, near: &mut usize) -> Span
    ensures low { result.low ≡ least_row stroke.now (area_at scene.now.strokes.now (areas_in scene.now.areas) slot).strokes scene.now.page scene.now.dots }
    ensures end { result.end ≡ greatest_row stroke.now (area_at scene.now.strokes.now (areas_in scene.now.areas) slot).strokes scene.now.page scene.now.dots }
    ensures within { result.end ≤ rows_of scene.now.page scene.now.dots }
{
    match scene.areas.ending_at(slot as usize, near) {
        Some(area) => rows_of_edges(stroke, edges_in(scene, area), &scene.page, scene.dots),
        None => extent_of(stroke, &scene.page, scene.dots).rows,
    }
}

// Puts a slot at the head of its band's chain.
fn link(heads: &mut [u32], links: &mut [u32], band: u32, slot: u32)
    requires { slot < length links.old }
    ensures heads { heads.new ≡ cond (nat_lt band (length heads.old)) (set heads.old band slot) heads.old }
    ensures links { links.new ≡ cond (nat_lt band (length heads.old))
        (set links.old slot (get_or heads.old band 0)) links.old }
{
    if (band as usize) < heads.len() {
        links[slot as usize] = heads[band as usize];
        heads[band as usize] = slot;
    }
}

/// Chains the strokes by the bands in which they begin.
pub fn chain(scene: &Scene<'_>, heads: &mut [u32], links: &mut [u32])
    requires slots { length links.old ≡ length scene.now.strokes.now + 1 }
    requires bands { length heads.old ≤ 1048576 }
    requires none { (b : ℕ) → b < length heads.old → get_or heads.old b 0 ≡ length scene.now.strokes.now + 1 }
    requires zero { get_or links.old 0 0 ≡ length scene.now.strokes.now + 1 }
    ensures linked { AreChained scene.now 0 heads.new links.new }
{
    let bands = heads.len() as u32;
    let mut slot = scene.strokes.len() as u32;
    let mut near = 0;
    'slots: while slot > 0 {
        let band = band_of_slot(scene, slot, bands, &mut near);
        link(heads, links, band, slot);
        slot -= 1;
    }
}
