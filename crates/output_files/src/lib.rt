//! Which file each plot and each of its sheets is written to, which files a run does not write, and the exit status of several
//! runs.
#![tactic(auto)]

mod claims;
mod file_id;
pub mod laws;
mod names;
mod statuses;

pub use claims::{Claim, Claims};
pub use file_id::FileId;
pub use names::file_name;
pub use statuses::greater_status;
