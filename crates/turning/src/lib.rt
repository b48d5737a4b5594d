//! A page turned counterclockwise by quarters, with the strokes and the labels that are on it.
#![tactic(auto)]

mod labels_turned;
pub mod laws;
mod pages;
mod places;
mod strokes;

pub use directions::Turn;
pub use labels_turned::turn_labels;
pub use pages::turned_page;
pub use strokes::{are_turnable, turn_strokes};
