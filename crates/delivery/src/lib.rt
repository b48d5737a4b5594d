//! What a run does with files: which it opens, writes, names and removes, and what it says.
#![tactic(auto)]

mod about;
mod desk;
mod ending;
mod folder;
mod messages;
mod output;
mod plots;
mod run;
mod sheets;
mod single;
mod voice;

pub use about::About;
pub use desk::{Desk, Found, Kind};
pub use ending::{Answer, Content, Ending};
pub use folder::{Order, Target, deliver_each, open_plot};
pub use messages::{NoPath, Reasons, cannot_write, refuse_memory, refuse_plot, refuse_write};
pub use output::{Scene, deliver_to, has_folder, write_stdout};
pub use plots::claims_of;
pub use run::{Single, Streams, USAGE, deliver_all, deliver_single};
pub use sheets::{PlotOf, Refusal, SheetOf, Sheets, Work};
pub use single::{deliver_plot_to, write_plot_to};
pub use voice::Voice;
