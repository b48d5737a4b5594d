//! Images of a sheet, among its strokes.
ghost use Rattle.std.specs.Prelude.{◌≡◌, []};
ghost use Rattle.page_images.specs.Views.{images_in};

use crate::page_image::PageImage;

/// Images, in their order, among the strokes of a sheet.
#[derive(Clone, Copy)]
pub struct PageImages<'a> {
    pub list: &'a [PageImage],
    /// How many strokes are drawn before those of the sheet. No image comes before these.
    pub first: usize,
}

impl<'a> PageImages<'a> {
    /// No images.
    pub fn none() -> PageImages<'a>
        ensures { images_in result ≡ [] }
    {
        PageImages {
            list: &[],
            first: 0,
        }
    }
}
