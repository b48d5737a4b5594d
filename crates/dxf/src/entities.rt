//! The entities of strokes and areas.
ghost use Rattle.std.specs.Prelude.{◌≡◌, ◌*◌};
ghost use Rattle.pieces.specs.Texts.{IsSound, Puts};
ghost use Rattle.dxf.specs.Entities.{entity_start, flags, last_vertex, point_text, polyline_end, polyline_start, single_text, start_vertex, vertex_text};
ghost use Rattle.dxf.specs.Steps.{after_if, after_piece, end_text, piece_text, text_if};

use crate::chains::{Pending, Piece, goes_on, is_same_point};
use crate::cuts::Point;
use crate::groups::{GRAIN, put_count, put_group, put_number, put_size};
use crate::layers::{Layers, put_layer, put_layer_groups};
use devices::Sink;
use pieces::Text;

// Puts what is written for the next piece of a stroke, if it is seen, and returns the chain that may go on after it.
pub(crate) fn put_next<K: Sink>(
    text: &mut Text<'_, K>,
    layers: &Layers,
    pending: Pending,
    piece: Option<Piece>,
) -> Pending
    requires sound { IsSound K.state text.old }
    ensures puts { Puts K.state text.old text.new (text_if layers.now pending piece) }
    ensures after { result ≡ after_if pending piece }
{
    match piece {
        Some(piece) => put_piece(text, layers, pending, piece),
        None => pending,
    }
}

// Puts what is written for the next piece of a stroke.
fn put_piece<K: Sink>(
    text: &mut Text<'_, K>,
    layers: &Layers,
    pending: Pending,
    next: Piece,
) -> Pending
    requires sound { IsSound K.state text.old }
    ensures puts { Puts K.state text.old text.new (piece_text layers.now pending next) }
    ensures after { result ≡ after_piece pending next }
{
    match pending {
        Pending::Nothing => Pending::Single(next),
        Pending::Single(last) => put_second(text, layers, last, next),
        Pending::Open(start, last) => put_later(text, layers, start, last, next),
    }
}

// Puts the next piece after a first one of which nothing is written yet.
fn put_second<K: Sink>(text: &mut Text<'_, K>, layers: &Layers, last: Piece, next: Piece) -> Pending
    requires sound { IsSound K.state text.old }
    ensures puts { Puts K.state text.old text.new (piece_text layers.now (Pending.Single last) next) }
    ensures after { result ≡ after_piece (Pending.Single last) next }
{
    if goes_on(&last, &next) {
        put_polyline_start(text, layers, &last);
        put_vertex(text, layers, last.pen, last.from);
        put_vertex(text, layers, next.pen, next.from);
        Pending::Open(last.from, next)
    } else {
        put_single(text, layers, &last);
        Pending::Single(next)
    }
}

// Puts the next piece after the last one of a polyline.
fn put_later<K: Sink>(
    text: &mut Text<'_, K>,
    layers: &Layers,
    start: Point,
    last: Piece,
    next: Piece,
) -> Pending
    requires sound { IsSound K.state text.old }
    ensures puts { Puts K.state text.old text.new (piece_text layers.now (Pending.Open start last) next) }
    ensures after { result ≡ after_piece (Pending.Open start last) next }
{
    if goes_on(&last, &next) {
        put_vertex(text, layers, next.pen, next.from);
        Pending::Open(start, next)
    } else {
        put_polyline_end(text, layers, start, &last);
        Pending::Single(next)
    }
}

// Puts the end of the chain that has begun.
pub(crate) fn put_end<K: Sink>(text: &mut Text<'_, K>, layers: &Layers, pending: Pending)
    requires sound { IsSound K.state text.old }
    ensures puts { Puts K.state text.old text.new (end_text layers.now pending) }
{
    match pending {
        Pending::Nothing => {}
        Pending::Single(last) => put_single(text, layers, &last),
        Pending::Open(start, last) => put_polyline_end(text, layers, start, &last),
    }
}

// Puts a chain of one piece.
fn put_single<K: Sink>(text: &mut Text<'_, K>, layers: &Layers, piece: &Piece)
    requires sound { IsSound K.state text.old }
    ensures puts { Puts K.state text.old text.new (single_text layers.now piece.now) }
{
    if is_same_point(piece.from, piece.to) {
        put_start(text, b"POINT", layers, piece);
        put_point(text, 10, 20, piece.from);
    } else {
        put_start(text, b"LINE", layers, piece);
        put_point(text, 10, 20, piece.from);
        put_point(text, 11, 21, piece.to);
    }
}

// Puts the start of an entity.
fn put_start<K: Sink>(text: &mut Text<'_, K>, type_name: &[u8], layers: &Layers, piece: &Piece)
    requires sound { IsSound K.state text.old }
    ensures puts { Puts K.state text.old text.new (entity_start type_name.now layers.now piece.now) }
{
    put_group(text, 0, type_name);
    put_layer_groups(text, layers, piece.pen, piece.colour);
}

// Puts a point, by the code of its x and that of its y.
pub(crate) fn put_point<K: Sink>(text: &mut Text<'_, K>, x: u32, y: u32, point: Point)
    requires sound { IsSound K.state text.old }
    ensures puts { Puts K.state text.old text.new (point_text x y point) }
{
    put_number(text, x, point.x);
    put_number(text, y, point.y);
}

// Puts the start of a polyline.
fn put_polyline_start<K: Sink>(text: &mut Text<'_, K>, layers: &Layers, piece: &Piece)
    requires sound { IsSound K.state text.old }
    ensures puts { Puts K.state text.old text.new (polyline_start layers.now piece.now) }
{
    put_start(text, b"POLYLINE", layers, piece);
    put_count(text, 66, 1);
    put_count(text, 10, 0);
    put_count(text, 20, 0);
    put_count(text, 30, 0);
    put_count(text, 70, flags(piece));
    put_size(text, 40, width_of(piece));
    put_size(text, 41, width_of(piece));
}

// The flags of a polyline: whether it is closed.
fn flags(piece: &Piece) -> u32
    ensures { result ≡ flags piece.now }
{
    if piece.is_closed { 1 } else { 0 }
}

// The width of a piece, in parts.
fn width_of(piece: &Piece) -> u128
    ensures { result ≡ GRAIN * piece.now.width }
{
    GRAIN * u128::from(piece.width)
}

// Puts a vertex of a polyline.
fn put_vertex<K: Sink>(text: &mut Text<'_, K>, layers: &Layers, pen: u8, point: Point)
    requires sound { IsSound K.state text.old }
    ensures puts { Puts K.state text.old text.new (vertex_text layers.now pen point) }
{
    put_group(text, 0, b"VERTEX");
    put_layer(text, layers, 8, pen);
    put_point(text, 10, 20, point);
}

// Puts the end of a polyline that began at a point, and of which this is the last piece.
fn put_polyline_end<K: Sink>(text: &mut Text<'_, K>, layers: &Layers, start: Point, last: &Piece)
    requires sound { IsSound K.state text.old }
    ensures puts { Puts K.state text.old text.new (polyline_end layers.now start last.now) }
{
    put_last_vertex(text, layers, start, last);
    put_group(text, 0, b"SEQEND");
}

// Puts where the last piece ends, unless the polyline is closed and began there.
fn put_last_vertex<K: Sink>(text: &mut Text<'_, K>, layers: &Layers, start: Point, last: &Piece)
    requires sound { IsSound K.state text.old }
    ensures puts { Puts K.state text.old text.new (last_vertex layers.now start last.now) }
{
    if last.is_closed && is_same_point(start, last.to) {
        return;
    }
    put_vertex(text, layers, last.pen, last.to);
}
