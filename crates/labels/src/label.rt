//! Labels.

use crate::line::Line;
use std::marker::Model;

/// A label that a plot writes.
#[derive(Drop)]
pub struct Label {
    /// How many strokes there were before it.
    pub first: usize,
    /// How many there were after it.
    pub after: usize,
    /// Its lines, in order.
    pub lines: Vec<Line>,
}

impl Model for Label {
    ghost use Rattle.labels.specs.Labels.{LabelShape};

    ghost Value = { LabelShape };

    ghost view = { λ s. record { first = s.first; after = s.after; lines = s.lines.items } };
}
