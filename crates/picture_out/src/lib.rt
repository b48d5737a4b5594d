//! The forms of a picture.
#![tactic(auto)]

mod bits;
mod cells;
mod form;
mod inks;
pub mod laws;
mod marks;
mod pbm;
pub mod pcl;
mod pieces;
mod ppm;

pub use bits::pack_bits;
pub use cells::Cells;
pub use form::{Form, put_foot, put_head, put_row, room, row_space, takes_resolution};
pub use inks::{Ink, Inks};
