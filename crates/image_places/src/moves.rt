//! Images moved from the page that they were drawn on to the page around the drawing.
ghost use Rattle.std.specs.Prelude.{◌≡◌, true};
ghost use Rattle.page_fit.specs.Moves.{IsCornerNear, is_movable};
ghost use Rattle.image_places.specs.Moves.{are_images_movable, moved_image, moved_images};

use crate::frame::pen_of;
use page_fit::{Corner, are_movable, move_strokes};
use page_images::PageImage;
use plot_page::Page;

/// Whether the corners of all images are places when they are moved to a page with this corner.
pub fn are_images_movable(images: &[PageImage], corner: Corner) -> bool
    requires { IsCornerNear corner }
    ensures { result ≡ are_images_movable corner images.now }
{
    for image in images {
        if !is_image_movable(image, corner) {
            return false;
        }
    }
    true
}

fn is_image_movable(image: &PageImage, corner: Corner) -> bool
    requires { IsCornerNear corner }
    ensures { result ≡ is_movable corner image.now.frame }
{
    are_movable(&[image.frame], &pen_of(&image.frame), corner)
}

/// Moves images from the page that they were drawn on to the page around the drawing, which has this corner.
pub fn move_images(images: &mut [PageImage], page: &Page, corner: Corner, around: &Page)
    requires near { IsCornerNear corner }
    requires movable { are_images_movable corner images.old ≡ true }
    ensures { images.new ≡ moved_images page.now corner around.now images.old }
{
    for image in images.iter_mut() {
        move_image(image, page, corner, around);
    }
}

fn move_image(image: &mut PageImage, page: &Page, corner: Corner, around: &Page)
    requires near { IsCornerNear corner }
    requires movable { is_movable corner image.old.frame ≡ true }
    ensures { image.new ≡ moved_image page.now corner around.now image.old }
{
    let mut frames = [image.frame];
    move_strokes(&mut frames, &pen_of(&image.frame), page, corner, around);
    image.frame = frames[0];
}
