//! The images of a sheet.
ghost use Rattle.std.specs.Prelude.{◌≡◌, ◌≤◌, length, drop, take, min};
ghost use Rattle.page_images.specs.PageImages.{all_counted, counted, images_between};

use crate::page_image::PageImage;

/// Keeps the images after the first `from`, up to number `end`, and counts their strokes without the first `first` ones.
pub fn keep_images(images: &mut Vec<PageImage>, from: usize, end: usize, first: usize)
    ensures { images.new.items ≡ all_counted first (images_between from end images.old.items) }
{
    images.truncate(end.min(images.len()));
    drop_front(images, from.min(images.len()));
    count_all(images.as_mut_slice(), first);
}

// Removes the first `front` images.
fn drop_front(images: &mut Vec<PageImage>, front: usize)
    requires { front ≤ length images.old.items }
    ensures { images.new.items ≡ drop front images.old.items }
{
    let rest = images.len() - front;
    images.rotate_left(front);
    images.truncate(rest);
}

// Counts the strokes of images from `first` on.
fn count_all(images: &mut [PageImage], first: usize)
    ensures { images.new ≡ all_counted first images.old }
{
    for image in images.iter_mut() {
        count(image, first);
    }
}

fn count(image: &mut PageImage, first: usize)
    ensures { image.new ≡ counted first image.old }
{
    image.before = (image.before as usize).saturating_sub(first) as u32;
}
