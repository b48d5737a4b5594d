//! The size of the page that a plot asks for.
#![tactic(auto)]

mod asked;
mod measures;

pub use asked::{longest_side, page_asked};
