//! Labels of any size, direction, slant, spacing, path and origin: the strokes of their letters, where the pen
//! ends, and the lines of their texts.
#![tactic(auto)]

mod cell;
mod cells;
mod checked;
mod core_text;
mod corner;
mod label;
pub mod laws;
mod letter;
mod lines;
mod near;
mod sections;
mod share;
mod strokes;
mod style;
mod user_character;
mod written;

pub use checked::Lettering;
pub use core_text::is_core_text;
pub use label::LabelEnds;
pub use strokes::Strokes;
pub use style::{LineFeed, Path, Style};
