//! A gauge of our own: it leaves out every second pixel, and counts its distance tests.
ghost use Rattle.std.specs.Prelude.{◌≤◌, IfOk, IfErr};
ghost use Rattle.conversion.specs.Pictures.{picture, HasPicture, Refuses};
ghost use Rattle.conversion.specs.Conversions.{job_boxes};
ghost use Rattle.library_examples.specs.Drafts.{every_second};
ghost use Rattle.library_examples.specs.Previews.{IsPreviewOf};

use crate::previews::{Preview, preview_picture};
use plotraster::{Dots, Fault, Gauge, Job, Page, Stroke};
use std::alloc::Global;
use stroke_raster::{laws, near};

// A gauge for drafts, which take half the ink: a stroke reaches every second of the pixels that it
// covers, as on a chessboard.
#[derive(Drop)]
struct Draft {
    tests: u64,
}

impl Gauge for Draft {
    ghost reaches = { λ _. every_second };

    ghost count = { λ g. g.tests };

    fn meets(&mut self, stroke: &Stroke, page: &Page, dots: Dots, row: u32, column: u32) -> bool {
        self.tests = self.tests.saturating_add(1);
        near(stroke, page, dots, row, column) && (row + column) % 2 == 0
    }

    fn tests(&self) -> u64 {
        self.tests
    }

    fn keeps_to_boxes(&self) {
        laws::covered_pixels_in_the_box();
    }
}

/// The draft of a plot's picture, or its beginning, and how many distance tests were made for it.
pub fn draft_picture(
    alloc: Global,
    job: &Job,
    plot: &[u8],
    room: usize,
) -> Result<(Preview, u64), Fault>
    ensures draft { IfOk result (λ made. IsPreviewOf (picture job.now every_second plot.now) made.0) }
    ensures accepted { IfOk result (λ _. HasPicture job.now plot.now) }
    ensures refused { IfErr result (Refuses job.now plot.now) }
    ensures tests { IfOk result (λ made. made.1 ≤ job_boxes job.now plot.now) }
{
    let mut gauge = Draft { tests: 0 };
    let draft = preview_picture(alloc, job, &mut gauge, plot, room)?;
    Ok((draft, gauge.tests()))
}
