//! How far images reach.
ghost use Rattle.std.specs.Prelude.{◌≡◌, ◌≤◌, ◌^◌, nat_abs, IfSome};
ghost use Rattle.std.specs.Int.{int_max, int_min};
ghost use Rattle.page_fit.specs.Extents.{IsNear, joined, joined_with};
ghost use Rattle.image_places.specs.Extents.{with_image, with_images};

use crate::frame::pen_of;
use areas::Shapes;
use page_fit::{Extent, extent_of};
use page_images::PageImage;
use plot_page::Page;

/// How far shapes reach, and images on the same page with them, in grains from its lower left corner. `None` if nothing of either
/// is seen.
pub fn extent_with_images(
    found: Option<Extent>,
    images: &[PageImage],
    page: &Page,
) -> Option<Extent>
    requires { IfSome found IsNear }
    ensures value { result ≡ with_images page.now found images.now }
    ensures near { IfSome result IsNear }
{
    let mut whole = found;
    for image in images {
        whole = with_image(whole, image, page);
    }
    whole
}

// With an image, if something of it is seen.

fn with_image(found: Option<Extent>, image: &PageImage, page: &Page) -> Option<Extent>
    requires { IfSome found IsNear }
    ensures value { result ≡ with_image page.now found image.now }
    ensures near { IfSome result IsNear }
{
    match extent_of(
        Shapes::of_strokes(&[image.frame]),
        pen_of(&image.frame),
        page,
    ) {
        Some(more) => Some(joined_with(found, more)),
        None => found,
    }
}

// What holds an extent, if there is one, and another.
fn joined_with(found: Option<Extent>, more: Extent) -> Extent
    requires found_near { IfSome found IsNear }
    requires near { IsNear more }
    ensures value { result ≡ joined_with found more }
    ensures near { IsNear result }
{
    match found {
        Some(extent) => joined(extent, more),
        None => more,
    }
}

fn joined(extent: Extent, more: Extent) -> Extent
    requires near { IsNear extent }
    requires more_near { IsNear more }
    ensures value { result ≡ joined extent more }
    ensures near { IsNear result }
{
    Extent {
        least_x: lesser(extent.least_x, more.least_x),
        least_y: lesser(extent.least_y, more.least_y),
        greatest_x: greater(extent.greatest_x, more.greatest_x),
        greatest_y: greater(extent.greatest_y, more.greatest_y),
    }
}

fn lesser(a: i64, b: i64) -> i64
    ensures value { result ≡ int_min a b }
    ensures near { nat_abs a ≤ 2 ^ 28 → nat_abs b ≤ 2 ^ 28 → nat_abs result ≤ 2 ^ 28 }
{
    a.min(b)
}

fn greater(a: i64, b: i64) -> i64
    ensures value { result ≡ int_max a b }
    ensures near { nat_abs a ≤ 2 ^ 28 → nat_abs b ≤ 2 ^ 28 → nat_abs result ≤ 2 ^ 28 }
{
    a.max(b)
}
