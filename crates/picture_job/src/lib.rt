//! What a picture is asked for by: the page, the resolution, the pens, the form, the smoothing; and how its plot is
//! read and placed.
#![tactic(auto)]

mod job;
pub mod laws;
mod page_choice;
mod picture;
mod png_job;
mod reading;
mod row_choice;
mod smoothing;
mod vector_job;

pub use job::Job;
pub use page_choice::{MOST_PIXELS_CHOSEN, PageChoice};
pub use picture::Picture;
pub use png_job::PngJob;
pub use reading::Reading;
pub use row_choice::RowChoice;
pub use smoothing::Smoothing;
pub use vector_job::{LabelChoice, VectorFormat, VectorJob};
