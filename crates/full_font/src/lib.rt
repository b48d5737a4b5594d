//! The full stick font: the strokes that draw characters by their code points in Unicode. It has small letters,
//! accents, Greek letters and technical signs.
#![tactic(auto)]

mod characters;
mod font;
mod grid;
pub mod laws;
mod rows;

pub use characters::glyph;
pub use grid::GlyphStroke;
