//! Whether a picture can have its resolution, and be smoothed.
ghost use Rattle.std.specs.Prelude.{◌≡◌};
ghost use Rattle.rows.specs.Documents.{is_png_possible};
ghost use Rattle.rows.specs.Pictures.{has_any_resolution, is_fine, is_possible, is_smoothed};

use picture_job::{Job, PngJob, Smoothing};
use picture_out::{Form, takes_resolution};
use plot_page::Dots;

/// Whether the job's form has its resolution, and its picture can be smoothed.
pub fn is_possible(job: &Job, smoothing: Smoothing) -> bool
    ensures { result ≡ is_possible smoothing.times job.now }
{
    let is_fine = !is_smoothed(job.form, smoothing) || is_fine(job.dots, smoothing);
    is_fine && takes_resolution(job.form, job.dots.per_inch())
}

/// Whether a PNG can be smoothed.
pub fn is_png_possible(job: &PngJob) -> bool
    ensures { result ≡ is_png_possible job.now }
{
    !is_smoothed(Form::Ppm, job.smoothing) || is_fine(job.dots, job.smoothing)
}

/// Whether a picture in this form may have any resolution.
pub fn has_any_resolution(form: Form) -> bool
    ensures { result ≡ has_any_resolution form }
{
    match form {
        Form::Pcl => false,
        Form::Marks | Form::Pbm | Form::Ppm => true,
    }
}

/// Whether a picture in a form is smoothed: only a PPM has shades.
pub(crate) fn is_smoothed(form: Form, smoothing: Smoothing) -> bool
    ensures { result ≡ is_smoothed smoothing.times form }
{
    smoothing.times() > 1 && matches!(form, Form::Ppm)
}

// Whether the finer picture that a picture is smoothed of is not too fine.
fn is_fine(dots: Dots, smoothing: Smoothing) -> bool
    ensures { result ≡ is_fine smoothing.times dots }
{
    smoothing.times() * dots.per_inch() <= 1200
}
