//! Images measured, moved and turned with the page on which they lie.
#![tactic(auto)]

mod extents;
mod frame;
mod moves;
mod off_page;
mod turns;

pub use extents::extent_with_images;
pub use moves::{are_images_movable, move_images};
pub use off_page::are_images_off_page;
pub use turns::{are_images_turnable, turn_images};
