//! SVG 1.1: strokes and areas on a page as a document of paths, and the texts of labels as titles.
#![tactic(auto)]

mod clip_paths;
mod clips;
mod commands;
mod document;
mod head;
mod images;
pub mod laws;
mod parts;
mod paths;
mod pictured;
mod places;
mod sections;
mod sheets;
mod steps;
mod strokes;
mod titles;

pub use clip_paths::ClipPaths;
pub use document::{write_svg, write_svg_sheets};
