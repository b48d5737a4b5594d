//! An image on a page.
ghost use Rattle.std.specs.Prelude.{◌≡◌};
ghost use Rattle.raster_graphics.specs.Laws.{RowsAscend};
ghost use Rattle.page_images.specs.PageImages.{page_image};
ghost use Rattle.page_images.specs.Frames.{row_count};

use crate::frame::frame_of;
use directions::Turn;
use plot_page::{Page, Stroke};
use raster_graphics::{Image, Numbers};
use std::marker::Model;

/// An image on a page, among the strokes that are drawn there.
#[derive(Drop)]
pub struct PageImage {
    /// Its dots.
    pub image: Image,
    /// Where it lies, as a stroke without a width: from the corner at which its first row begins to the corner after its last
    /// dot, rounded away from the first one, in the window in which it is seen.
    pub frame: Stroke,
    /// How it is turned about its first corner.
    pub turn: Turn,
    /// How many strokes are drawn before it.
    pub before: u32,
}

impl Model for PageImage {
    ghost use Rattle.raster_graphics.specs.Laws.{RowsAscend};
    ghost use Rattle.page_images.specs.PageImages.{ImageShape};

    ghost Value = { ImageShape };

    ghost view = { λ i. record { image = i.image; frame = i.frame; turn = i.turn; before = i.before } };

    ghost invariant = { λ i. RowsAscend i.image };
}

impl PageImage {
    /// An image as it is drawn on a page, after `before` strokes.
    pub fn new(image: Image, page: &Page, before: u32) -> PageImage
        requires { RowsAscend image }
        ensures { result ≡ page_image page.now image before }
    {
        let frame = frame_of(&image, page);
        PageImage {
            image,
            frame,
            turn: Turn::None,
            before,
        }
    }

    /// How many rows it has: those up to the last one that was sent.
    pub fn rows(&self) -> u64
        ensures { result ≡ row_count self.now.image.numbers }
    {
        row_count(&self.image.numbers)
    }
}

/// The number after that of the last row.
pub(crate) fn row_count(numbers: &Numbers) -> u64
    ensures { result ≡ row_count numbers.now }
{
    match numbers.as_slice() {
        [] => 0,
        [.., last] => u64::from(*last) + 1,
    }
}
