//! Whether a picture can have its resolution, which is judged before anything is read.
ghost use Rattle.std.specs.Prelude.{◌≡◌};
ghost use Rattle.conversion.specs.PageJobs.{is_picture_possible, is_png_possible_in, is_possible_in};

use picture_job::{Job, PageChoice, Picture, PngJob, Smoothing};
use rows::{has_any_resolution, is_png_possible, is_possible};

/// Whether a picture can be written at its resolution or in the pixels that are chosen, and smoothed.
pub(crate) fn is_picture_possible(choice: PageChoice, picture: &Picture) -> bool
    ensures { result ≡ is_picture_possible choice picture.now }
{
    match picture {
        Picture::Rows { job, rows } => are_rows_possible(choice.pixels, job, rows.smoothing),
        Picture::Png(job) => is_png_possible_in(choice.pixels, job),
        Picture::Vector(_) => true,
    }
}

// The same of a picture in the job's form.
fn are_rows_possible(pixels: Option<u32>, job: &Job, smoothing: Smoothing) -> bool
    ensures { result ≡ is_possible_in pixels smoothing.times job.now }
{
    match pixels {
        None => is_possible(job, smoothing),
        Some(_) => has_any_resolution(job.form),
    }
}

// The same of a PNG.
fn is_png_possible_in(pixels: Option<u32>, job: &PngJob) -> bool
    ensures { result ≡ is_png_possible_in pixels job.now }
{
    pixels.is_some() || is_png_possible(job)
}
