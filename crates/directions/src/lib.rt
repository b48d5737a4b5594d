//! Directions on a page, in parts of 2^30: the direction of a vector, turns by quarters, and offsets
//! that follow a direction.
#![tactic(auto)]

mod direction;
pub mod laws;
mod turn;

pub use direction::Direction;
pub use turn::Turn;
