//! From the bytes of a plot to the bytes of a bitmap.
ghost use Rattle.std.specs.Prelude.{◌≡◌, IfOk, IfErr};
ghost use Rattle.conversion.specs.Pictures.{picture, HasPicture};
ghost use Rattle.rows.specs.Pictures.{exact};
ghost use Rattle.library_examples.specs.Bitmaps.{bitmap_job};
ghost use Rattle.library_examples.specs.Refusals.{HasNoBitmap};

use plotraster::{Dots, Fault, Form, Job, Page, PenSet, picture_bytes};
use std::alloc::Global;

/// The PBM picture of a plot: the whole page, of these pens.
pub fn bitmap(
    alloc: Global,
    page: Page,
    dots: Dots,
    pens: PenSet,
    plot: &[u8],
) -> Result<Vec<u8>, Fault>
    ensures picture { IfOk result (λ bytes. bytes.items ≡ picture (bitmap_job page dots pens) exact plot.now) }
    ensures accepted { IfOk result (λ _. HasPicture (bitmap_job page dots pens) plot.now) }
    ensures refused { IfErr result (HasNoBitmap page dots plot.now) }
{
    let job = Job {
        page,
        dots,
        pens,
        band: 64,
        first_row: 0,
        form: Form::Pbm,
    };
    picture_bytes(alloc, &job, plot)
}
