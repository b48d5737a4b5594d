//! Moving labels to another page.
ghost use Rattle.std.specs.Prelude.{◌≡◌, map};
ghost use Rattle.labels.specs.Labels.{IsNear};
ghost use Rattle.labels.specs.Moves.{moved_label, moved_labels, moved_line, moved_place};
ghost use Rattle.page_fit.specs.Moves.{moved};

use crate::label::Label;
use crate::line::Line;
use crate::place::{Place, cut};
use page_fit::Corner;

// How many grains a plotter unit has.
const GRAINS: i128 = 16;

/// Moves labels from the page that they were drawn on to one with this corner. What would be farther away than strokes may
/// end is cut to that.
pub fn move_labels(labels: &mut [Label], corner: Corner)
    ensures { labels.new ≡ moved_labels corner labels.old }
{
    for label in labels.iter_mut() {
        move_label(label, corner);
    }
}

fn move_label(label: &mut Label, corner: Corner)
    ensures { label.new ≡ moved_label corner label.old }
{
    move_lines(label.lines.as_mut_slice(), corner);
}

// The same with the lines of a label.
fn move_lines(lines: &mut [Line], corner: Corner)
    ensures { lines.new ≡ map (moved_line corner) lines.old }
{
    for line in lines.iter_mut() {
        move_line(line, corner);
    }
}

fn move_line(line: &mut Line, corner: Corner)
    ensures { line.new ≡ moved_line corner line.old }
{
    line.start = moved_place(corner, line.start);
    line.end = moved_place(corner, line.end);
    line.top = moved_place(corner, line.top);
}

fn moved_place(corner: Corner, place: Place) -> Place
    ensures value { result ≡ moved_place corner place }
    ensures near { IsNear result }
{
    Place {
        x: cut(moved(corner.x, place.x)),
        y: cut(moved(corner.y, place.y)),
    }
}

// A number of a place, from a side that lies so many plotter units farther.
fn moved(side: i64, place: i32) -> i128
    ensures { result ≡ moved side place }
{
    i128::from(place) - GRAINS * i128::from(side)
}
