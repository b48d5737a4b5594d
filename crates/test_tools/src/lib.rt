//! What several test crates use.
#![tactic(auto)]

mod recorder;

pub use recorder::Recorder;
