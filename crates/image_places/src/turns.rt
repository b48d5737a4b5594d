//! Images turned with their page.
ghost use Rattle.std.specs.Prelude.{◌≡◌, true};
ghost use Rattle.turning.specs.Turns.{is_turnable};
ghost use Rattle.image_places.specs.Turns.{are_images_turnable, turned_image, turned_images};

use crate::frame::pen_of;
use page_images::PageImage;
use plot_page::Page;
use turning::{Turn, are_turnable, turn_strokes};

/// Whether the corners of all images are places after a turn of their page.
pub fn are_images_turnable(images: &[PageImage], turn: Turn, page: &Page) -> bool
    ensures { result ≡ are_images_turnable turn page.now images.now }
{
    for image in images {
        if !is_image_turnable(image, turn, page) {
            return false;
        }
    }
    true
}

fn is_image_turnable(image: &PageImage, turn: Turn, page: &Page) -> bool
    ensures { result ≡ is_turnable turn page.now image.now.frame }
{
    are_turnable(&[image.frame], &pen_of(&image.frame), turn, page)
}

/// Turns images, of which none is turned, with their page.
pub fn turn_images(images: &mut [PageImage], turn: Turn, page: &Page)
    requires { are_images_turnable turn page.now images.old ≡ true }
    ensures { images.new ≡ turned_images turn page.now images.old }
{
    for image in images.iter_mut() {
        turn_image(image, turn, page);
    }
}

fn turn_image(image: &mut PageImage, turn: Turn, page: &Page)
    requires { is_turnable turn page.now image.old.frame ≡ true }
    ensures { image.new ≡ turned_image turn page.now image.old }
{
    let mut frames = [image.frame];
    turn_strokes(&mut frames, &pen_of(&image.frame), turn, page);
    image.frame = frames[0];
    image.turn = turn;
}
