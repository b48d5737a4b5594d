//! Labels that are turned with their page.
ghost use Rattle.std.specs.Prelude.{◌≡◌, map};
ghost use Rattle.labels.specs.Labels.{IsNear};
ghost use Rattle.turning.specs.Turns.{turned_label, turned_labels, turned_letter, turned_line};

use crate::places::turned_place;
use directions::Turn;
use labels::{Label, Line, Place};
use plot_page::Page;

/// Turns labels with their page. What would be farther away than strokes may end is cut to that.
pub fn turn_labels(labels: &mut [Label], turn: Turn, page: &Page)
    ensures { labels.new ≡ turned_labels turn page.now labels.old }
{
    for label in labels.iter_mut() {
        turn_label(label, turn, page);
    }
}

fn turn_label(label: &mut Label, turn: Turn, page: &Page)
    ensures { label.new ≡ turned_label turn page.now label.old }
{
    turn_lines(label.lines.as_mut_slice(), turn, page);
}

fn turn_lines(lines: &mut [Line], turn: Turn, page: &Page)
    ensures { lines.new ≡ map (turned_line turn page.now) lines.old }
{
    for line in lines.iter_mut() {
        turn_line(line, turn, page);
    }
}

fn turn_line(line: &mut Line, turn: Turn, page: &Page)
    ensures { line.new ≡ turned_line turn page.now line.old }
{
    line.start = turned_letter(turn, page, line.start);
    line.end = turned_letter(turn, page, line.end);
    line.top = turned_letter(turn, page, line.top);
}

// A place of a letter after the turn.
fn turned_letter(turn: Turn, page: &Page, place: Place) -> Place
    ensures value { result ≡ turned_letter turn page.now place }
    ensures near { IsNear result }
{
    Place::of(turned_place(turn, page, place.x, place.y))
}
