//! Which pens draw a stroke.
ghost use Rattle.std.specs.Prelude.{◌≡◌, ℕ, ◌+◌, ◌<◌, ◌≤◌, ◌++◌, [], ◌∷◌, ◌==◌, ◌&&◌, ◌||◌, if◌then◌else◌, take};
ghost use Rattle.std.specs.Prelude.{filter};
ghost use Rattle.std.specs.List.{range_with_len};
ghost use Rattle.plot_page.specs.Pens.{has_pen};
ghost use Rattle.pdf.specs.Documents.{has_drawn, pens_drawn};
ghost use Rattle.stroke_runs.specs.Drawn.{is_drawn};

use plot_page::{PenSet, Stroke};
use stroke_runs::is_drawn;

/// How many numbers a pen may have.
pub(crate) const PENS: usize = 256;

// Lists the pens that draw a stroke, by their numbers, and returns how many they are.
pub(crate) fn list_pens(pens: &PenSet, strokes: &[Stroke], list: &mut [u8; PENS]) -> usize
    ensures list { take result list.new ≡ pens_drawn pens.now strokes.now }
    ensures few { result ≤ PENS }
{
    let drawn = pens_of(pens, strokes);
    list_set(&drawn, list)
}

// The pens that draw a stroke.
fn pens_of(pens: &PenSet, strokes: &[Stroke]) -> PenSet
    ensures { (pen : ℕ) → pen < 256 → has_pen result pen ≡ has_drawn pens.now strokes.now pen }
{
    let mut drawn = PenSet::none();
    for stroke in strokes {
        drawn = with_drawn(drawn, pens, stroke);
    }
    drawn
}

// The set with the pen of a stroke, if it is drawn.
fn with_drawn(set: PenSet, pens: &PenSet, stroke: &Stroke) -> PenSet
    ensures { (pen : ℕ) → pen < 256
        → has_pen result pen ≡ (has_pen set pen || (is_drawn pens.now stroke.now && (pen == stroke.now.pen))) }
{
    if is_drawn(pens, stroke) {
        set.with(stroke.pen)
    } else {
        set
    }
}

// Lists the pens of a set by their numbers, and returns how many they are.
fn list_set(set: &PenSet, list: &mut [u8; PENS]) -> usize
    ensures list { take result list.new ≡ filter (has_pen set.now) (range_with_len 0 256) }
    ensures few { result ≤ PENS }
{
    let mut count = 0;
    for pen in 0..PENS {
        count = append_if(list, count, set.has(pen as u8), pen as u8);
    }
    count
}

// Adds a number to the first `count` of a list, or not, and returns how many are listed then.
pub(crate) fn append_if(list: &mut [u8; PENS], count: usize, is_listed: bool, pen: u8) -> usize
    requires { count < PENS }
    ensures list { take result list.new ≡ take count list.old ++ (if is_listed then (pen ∷ []) else []) }
    ensures few { result ≤ count + 1 }
{
    if !is_listed {
        return count;
    }
    list[count] = pen;
    count + 1
}
