//! Turning a drawing with the page that it shows.
ghost use Rattle.std.specs.Prelude.{◌≡◌, true, false, IfOk, IfErr, is_ok};
ghost use Rattle.image_places.specs.Turns.{are_images_turnable};
ghost use Rattle.turning.specs.Turns.{are_turnable};
ghost use Rattle.conversion.specs.Turned.{AreTurned, IsTurned, can_be_turned};

use crate::lines::Lines;
use crate::place::Drawing;
use image_places::{are_images_turnable, turn_images};
use plot_page::{Page, PenSet};
use turning::{Turn, are_turnable, turn_labels, turn_strokes, turned_page};

/// The drawing after a turn of the page that it shows, with the strokes of the selected pens, the images and the labels. What it says of the
/// page that its plot is drawn on, and of the page as a report names it, stays.
///
/// Errors: the drawing as it is, if a stroke of a selected pen, or an image, would lie too far away after the turn.
pub(crate) fn turned(drawing: Drawing, pens: &PenSet, turn: Turn) -> Result<Drawing, Drawing>
    ensures turned { IfOk result (IsTurned pens.now turn drawing) }
    ensures kept { IfErr result (λ kept. kept ≡ drawing) }
    ensures decides { is_ok result ≡ can_be_turned pens.now turn drawing }
{
    let lines = &drawing.lines;
    if are_turnable(lines.strokes.as_slice(), pens, turn, &drawing.page)
        && are_images_turnable(lines.images.as_slice(), turn, &drawing.page)
    {
        Ok(turned_drawing(drawing, pens, turn))
    } else {
        Err(drawing)
    }
}

// A drawing that can be turned, turned.
fn turned_drawing(drawing: Drawing, pens: &PenSet, turn: Turn) -> Drawing
    requires strokes { are_turnable pens.now turn drawing.page drawing.lines.strokes.items ≡ true }
    requires images { are_images_turnable turn drawing.page drawing.lines.images.items ≡ true }
    ensures { IsTurned pens.now turn drawing result }
{
    let page = drawing.page;
    Drawing {
        placement: drawing.placement,
        drawn_on: drawing.drawn_on,
        corner: drawing.corner,
        page: turned_page(turn, &page),
        named: drawing.named,
        lines: turned_lines(drawing.lines, pens, turn, &page),
        counts: drawing.counts,
    }
}

// Lines that can be turned with their page, turned.
fn turned_lines(lines: Lines, pens: &PenSet, turn: Turn, page: &Page) -> Lines
    requires strokes { are_turnable pens.now turn page.now lines.strokes.items ≡ true }
    requires images { are_images_turnable turn page.now lines.images.items ≡ true }
    ensures { AreTurned pens.now turn page.now lines result }
{
    let mut lines = lines;
    turn_strokes(lines.strokes.as_mut_slice(), pens, turn, page);
    turn_images(lines.images.as_mut_slice(), turn, page);
    turn_labels(lines.labels.as_mut_slice(), turn, page);
    lines
}
