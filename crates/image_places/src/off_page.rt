//! Whether images lie off the page.
ghost use Rattle.std.specs.Prelude.{◌≡◌};
ghost use Rattle.page_fit.specs.Census.{is_beside};
ghost use Rattle.page_fit.specs.Extents.{reach};
ghost use Rattle.image_places.specs.Extents.{are_images_off_page};

use crate::frame::pen_of;
use areas::Shapes;
use page_fit::is_off_page;
use page_images::PageImage;
use plot_page::Page;

/// Whether all images lie off the page.
pub fn are_images_off_page(images: &[PageImage], page: &Page) -> bool
    ensures { result ≡ are_images_off_page page.now images.now }
{
    for image in images {
        if !is_image_off_page(image, page) {
            return false;
        }
    }
    true
}

fn is_image_off_page(image: &PageImage, page: &Page) -> bool
    ensures { result ≡ is_beside page.now (reach image.now.frame) }
{
    is_off_page(
        Shapes::of_strokes(&[image.frame]),
        &pen_of(&image.frame),
        page,
    )
}
