//! Images of a plot on its page: where they lie, and among which strokes.
#![tactic(auto)]

mod frame;
mod list;
mod page_image;
mod sheets;

pub use directions::Turn;
pub use list::PageImages;
pub use page_image::PageImage;
pub use raster_graphics::{Image, Place};
pub use sheets::keep_images;
