//! A stick font: the strokes that draw the printing characters of ASCII, and where those of a label lie:
//! cell by cell, and how far each is from the label's start.
#![tactic(auto)]

mod cell;
mod characters;
mod font;
mod grid;
mod label;
pub mod laws;
mod size;

pub use cell::Cell;
pub use characters::{column_width, glyph};
pub use grid::GridStroke;
pub use label::{LabelStroke, label_stroke};
pub use size::CharacterSize;
