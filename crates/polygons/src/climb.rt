//! Edges that cross lines, and where they cross them.
use crate::place::Place;

// The lines that an edge crosses: at least one.
#[derive(Clone, Copy, Debug)]
pub struct Climb {
    // The number of the first line, and that of the line after the last.
    pub first: i32,
    pub end: i32,
    // The number of the edge, from 0 on.
    pub number: usize,
}

// Where an edge crosses a line.
#[derive(Clone, Copy, Debug)]
pub struct Crossing {
    pub place: Place,
    // How far along the line the place is.
    pub rank: i64,
    pub is_upward: bool,
    // The number of the edge.
    pub number: usize,
}
