//! Images on pages of pixels: which colours they show, over which strokes.
#![tactic(auto)]

mod cells;
mod dots;
pub mod laws;
mod missed;
mod placed;
mod reach;
mod way;

pub use cells::{mark_of, paint_images};
pub use page_images::{Image, PageImage, PageImages, Place, Turn};
pub use placed::PlacedImage;
