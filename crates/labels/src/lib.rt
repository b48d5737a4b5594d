//! Labels: what a plot writes, and where its letters are on the page.
#![tactic(auto)]

mod label;
mod line;
mod moves;
mod place;
mod sheets;

pub use label::Label;
pub use line::Line;
pub use moves::move_labels;
pub use place::Place;
pub use sheets::{keep_labels, labels_between, labels_from, labels_to};
