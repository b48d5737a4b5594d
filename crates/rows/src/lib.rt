//! The rows of a picture of strokes and images: painted band by band, and written in a form or as a PNG. Nothing here knows of
//! plots.
#![tactic(auto)]

mod bands;
mod bit_bands;
mod bit_numbers;
mod buffer;
mod cell_bands;
mod cell_row;
mod contents;
mod encoding;
mod even_rows;
mod fault;
mod image_bands;
mod image_inks;
mod image_painting;
mod image_png;
mod image_row;
mod image_smooth_bands;
mod image_smoother;
mod inked;
mod known;
mod number_bands;
mod painting;
mod palette;
mod pcl_bands;
mod png_picture;
mod possible;
mod sample_row;
mod scene;
mod smooth_bands;
mod smooth_palette;
mod smooth_picture;
mod smoother;
mod strips;
mod stroke_inks;
mod watcher;
mod writing;

pub use buffer::buffer_of;
pub use contents::Contents;
pub use fault::PictureFault;
pub use page_images::{PageImage, PageImages};
pub use painting::paint;
pub use png_picture::paint_png;
pub use possible::{has_any_resolution, is_png_possible, is_possible};
pub use strips::end_of;
pub use stroke_inks::StrokeInks;
pub use watcher::{Unwatched, Watcher};
