//! The images of a sheet.
ghost use Rattle.std.specs.Prelude.{◌≡◌, ◌≤◌, length};
ghost use Rattle.conversion.specs.Images.{images_of_sheet};
ghost use Rattle.page_images.specs.Views.{images_in};

use full_plot::{images_on, sheet_end, start_of};
use page_images::{PageImage, PageImages, keep_images};

/// The images of a sheet, which counts from 1, by its strokes; for 0 those of all sheets. `image_ends` and `ends` tell how many
/// images and how many strokes there were when each sheet ended, and `count` how many strokes there are on all sheets.
pub(crate) fn images_of<'a>(
    images: &'a [PageImage],
    image_ends: &[usize],
    ends: &[usize],
    count: usize,
    sheet: u32,
) -> PageImages<'a>
    ensures images { images_in result ≡ images_of_sheet images.entry.now image_ends.now ends.now count sheet }
    ensures few { length result.list.now ≤ length images.entry.now }
{
    if sheet == 0 {
        return PageImages {
            list: images,
            first: 0,
        };
    }
    PageImages {
        list: images_on(images, image_ends, sheet),
        first: start_of(ends, count, sheet),
    }
}

/// Keeps the images of a sheet alone, by its strokes; for 0 it keeps those of all sheets.
pub(crate) fn keep_images_of(
    images: &mut Vec<PageImage>,
    image_ends: &[usize],
    ends: &[usize],
    count: usize,
    sheet: u32,
)
    ensures { images.new.items ≡ images_of_sheet images.old.items image_ends.now ends.now count sheet }
{
    if sheet != 0 {
        let all = images.len();
        keep_images(
            images,
            start_of(image_ends, all, sheet),
            sheet_end(image_ends, all, sheet),
            start_of(ends, count, sheet),
        );
    }
}
