//! DXF R12 (AC1009) in ASCII: strokes and areas on a page as lines and polylines, and labels as texts.
#![tactic(auto)]

mod angles;
mod chains;
mod colours;
mod cuts;
mod document;
mod entities;
mod forms;
mod groups;
mod head;
pub mod laws;
mod layers;
mod letters;
mod palette;
mod parts;
mod sheets;
mod strokes;
mod tangents;

pub use document::{write_dxf, write_dxf_sheets};
