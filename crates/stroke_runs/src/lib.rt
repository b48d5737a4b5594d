//! Runs: strokes that follow one another and are drawn in one way, or areas, as a vector document draws them in one path.
#![tactic(auto)]

mod drawn;
pub mod laws;
mod role;
mod roles;
mod runs;
mod sheets;
mod shown;
mod view;

pub use drawn::{has_place, is_drawn};
pub use role::Role;
pub use roles::Roles;
pub use runs::{Link, MOST_IN_RUN, Runs};
pub use sheets::{between, count_to, end_of};
pub use shown::{LEAST_WIDTH, has_drawn, is_shown, is_whole_page, shown_width};
pub use view::SheetView;
