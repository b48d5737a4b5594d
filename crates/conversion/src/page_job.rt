//! The job of a picture on the page that it shows, and whether it has too many pixels there.
ghost use Rattle.std.specs.Prelude.{◌≡◌};
ghost use Rattle.conversion.specs.PageJobs.{has_too_many_pixels, on_page, png_on_page, smoothing_on};

use picture_job::{Job, PageChoice, PngJob, Smoothing};
use plot_page::{Dots, Page};

/// The most columns of pixels that a picture may have, and the most rows.
pub const MOST_COLUMNS_AND_ROWS: u32 = 400_000;

/// Whether a picture of this page at this resolution has more columns or rows than a picture may have.
pub fn has_too_many_pixels(page: &Page, dots: Dots) -> bool
    ensures { result ≡ has_too_many_pixels page.now dots }
{
    dots.columns(page) > MOST_COLUMNS_AND_ROWS || dots.rows(page) > MOST_COLUMNS_AND_ROWS
}

/// The job on this page, whose picture has the resolution of the job, or as many pixels as are chosen.
pub fn on_page(choice: PageChoice, page: Page, job: &Job) -> Job
    ensures { result ≡ on_page choice page job.now }
{
    Job {
        page,
        dots: choice.dots(&page, job.dots),
        ..*job
    }
}

/// How this picture is smoothed.
pub fn smoothing_on(choice: PageChoice, page: Page, job: &Job, smoothing: Smoothing) -> Smoothing
    ensures { result ≡ smoothing_on choice page job.now smoothing }
{
    choice.smoothing(choice.dots(&page, job.dots), smoothing)
}

/// The same of the job of a PNG.
pub fn png_on_page(choice: PageChoice, page: Page, job: &PngJob) -> PngJob
    ensures { result ≡ png_on_page choice page job.now }
{
    let dots = choice.dots(&page, job.dots);
    PngJob {
        page,
        dots,
        smoothing: choice.smoothing(dots, job.smoothing),
        ..*job
    }
}
