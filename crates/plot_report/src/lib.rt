//! The report on a plot: lines of text on its page, the strokes and the areas of each pen, and its notes.
#![tactic(auto)]

pub mod laws;
mod lines;
mod pens;
mod report;
mod report_page;
mod summary;
mod words;

pub use report::{MOST_NOTES, write_full_report, write_report};
pub use report_page::ReportPage;
