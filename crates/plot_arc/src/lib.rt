//! Points of circles and arcs: sines by a table, the ends of an arc's chords, and the angles at which
//! they lie. Arithmetic is in whole numbers, so the same plot gives the same points everywhere.
#![tactic(auto)]

mod chords;
pub mod laws;
mod sines;
mod turns;

pub use chords::{chord_point, is_short_spot, short_chord_point};
pub use sines::sine;
pub use turns::{turn, turn_count};
