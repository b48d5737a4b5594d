//! Sets of characters: which character a byte of a label is, and the signs of a text.
#![tactic(auto)]

mod code_points;
mod encoding;
pub mod laws;
mod national;
mod numbers;
mod set;
mod sets;
mod sign;
mod signs;
mod tables;
mod unread;
mod utf8;

pub use encoding::Encoding;
pub use set::CharacterSet;
pub use sets::{Selection, Sets};
pub use sign::Sign;
pub use signs::Signs;
