//! How the items of a plot are read in the profile full, by what was set before them, and what is noted on them.
#![tactic(auto)]

mod context;
mod notes;
mod noting;
mod reading;

pub use context::Context;
pub use notes::FullNotes;
pub use noting::{bad_without, noted_asked, noted_request, take_note};
pub use reading::{arc_read, circle_read, is_misplaced, request_read};
