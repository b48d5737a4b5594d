//! What a plot draws in the profile full: the instructions of core, line types, labels in any direction, symbols,
//! ticks, curves, polygons and their fills, widths in percent, ranges of colours, and images.
#![tactic(auto)]

mod bold;
mod carrying;
mod core_labels;
mod curve_steps;
mod dashing;
mod drawn;
mod edges;
mod escapes_obeyed;
mod figures;
mod fill_lines;
mod filling;
mod fills;
mod further;
mod graphics;
mod ink;
mod inks;
mod label_texts;
pub mod laws;
mod lines;
mod plain;
mod plotter;
mod polygons_traced;
mod requests;
mod sheets;
mod steps;
mod texts;
mod ticks;
mod user_characters;
mod widths;
mod work;
mod writing;

pub use carousel::Carousel;
pub use drawn::{FullDrawn, draw_full, draw_full_with};
pub use filling::Filling;
pub use graphics::Graphics;
pub use page_images::PageImage;
pub use plotter::FullPlotter;
pub use sheets::{
    areas_on, images_on, keep_areas_of, keep_labels_of, keep_sheet, labels_on, sheet_end, sheet_of,
    start_of,
};
pub use writing::Writing;
