//! What a program can do with the library: examples, each with the contract that its caller gets.
//! `docs/LIBRARY.md` goes through them.
#![tactic(auto)]

mod bitmaps;
mod drafts;
mod pens;
mod previews;
#[cfg(test)]
mod tests;

pub use bitmaps::bitmap;
pub use drafts::draft_picture;
pub use pens::strokes_of_pen;
pub use previews::{Preview, preview_picture};
