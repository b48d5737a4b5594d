//! Chains: pieces of strokes that follow one another.
ghost use Rattle.std.specs.Prelude.{◌≡◌};
ghost use Rattle.stroke_runs.specs.Drawn.{is_same_colour};
ghost use Rattle.dxf.specs.Chains.{goes_on, is_same_point, piece_of, piece_on};

use crate::cuts::{Line, Point, line_of};
use plot_page::{Colour, Stroke};

/// What is seen of a stroke.
#[derive(Clone, Copy)]
pub(crate) struct Piece {
    pub(crate) pen: u8,
    pub(crate) colour: Colour,
    /// Its width, in grains.
    pub(crate) width: u32,
    /// Whether it is an edge of an area that is seen as a whole.
    pub(crate) is_closed: bool,
    pub(crate) from: Point,
    pub(crate) to: Point,
}

/// A chain that may go on.
#[derive(Clone, Copy)]
pub(crate) enum Pending {
    /// There is none.
    Nothing,
    /// It has one piece, of which nothing is written yet.
    Single(Piece),
    /// It is a polyline that begins at this point, with the vertices where its pieces up to this one begin.
    Open(Point, Piece),
}

// What is seen of a stroke, with this width.
pub(crate) fn piece_of(width: u32, is_closed: bool, stroke: &Stroke) -> Option<Piece>
    ensures { result ≡ piece_of width is_closed stroke.now }
{
    match line_of(stroke) {
        Some(line) => Some(piece_on(width, is_closed, stroke, line)),
        None => None,
    }
}

// A piece of a stroke.
fn piece_on(width: u32, is_closed: bool, stroke: &Stroke, line: Line) -> Piece
    ensures { Some result ≡ piece_on width is_closed stroke.now (Some line) }
{
    Piece {
        pen: stroke.pen,
        colour: stroke.colour,
        width,
        is_closed,
        from: line.from,
        to: line.to,
    }
}

// Whether a piece goes on the chain of the last one.
pub(crate) fn goes_on(last: &Piece, next: &Piece) -> bool
    ensures { result ≡ goes_on last.now next.now }
{
    last.pen == next.pen
        && last.width == next.width
        && is_same_colour(last.colour, next.colour)
        && is_same_point(last.to, next.from)
}

pub(crate) fn is_same_colour(one: Colour, other: Colour) -> bool
    ensures { result ≡ is_same_colour one other }
{
    one.red == other.red && one.green == other.green && one.blue == other.blue
}

pub(crate) fn is_same_point(one: Point, other: Point) -> bool
    ensures { result ≡ is_same_point one other }
{
    one.x == other.x && one.y == other.y
}
