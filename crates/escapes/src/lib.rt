//! Escapes of HP RTL and PCL within a plot, cut into commands.
#![tactic(auto)]

mod bytes;
mod command;
mod escape;
mod finished;
pub mod laws;
mod value;

pub use command::{Command, GREATEST_INTEGER, Sign};
pub use escape::{Chain, Step, escape_length, first_step};
