//! What a command line asks for: its subcommands and options, and the values that they give.
#![tactic(auto)]

mod carousels;
mod characters;
mod defaults;
mod destination;
mod fault;
mod forms;
mod groups;
mod help;
mod label_choices;
mod line;
mod options;
mod pages;
mod papers;
pub mod parses;
mod sheets;
mod subcommands;
mod table;
mod turns;
mod values;

pub use destination::{Destination, output_of};
pub use fault::{BuildFault, LineFault, parse_status};
pub use help::VERSION;
pub use line::{Line, Task, settle};
pub use options::{command, parse};
