//! A request for a picture in any form or document.
use crate::job::Job;
use crate::png_job::PngJob;
use crate::row_choice::RowChoice;
use crate::vector_job::VectorJob;

/// A request for a picture: in a form, whose rows stand by themselves, as a PNG, which is whole, or as a vector document.
#[derive(Clone, Copy)]
pub enum Picture {
    /// In a form.
    Rows { job: Job, rows: RowChoice },
    /// As a PNG.
    Png(PngJob),
    /// As a vector document.
    Vector(VectorJob),
}
