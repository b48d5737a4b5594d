//! Where images lie.
ghost use Rattle.std.specs.Prelude.{◌≡◌, ◌≤◌, ◌+ℤ◌, pos, nat_abs};
ghost use Rattle.page_fit.specs.Moves.{page_window};
ghost use Rattle.page_images.specs.Frames.{reach, far_end, frame, in_range};

use crate::page_image::row_count;
use plot_page::{Colour, FARTHEST_END, Page, Stroke, Window};
use raster_graphics::Image;

const BLACK: Colour = Colour {
    red: 0,
    green: 0,
    blue: 0,
};

/// Where an image lies that is drawn on a page.
pub(crate) fn frame_of(image: &Image, page: &Page) -> Stroke
    ensures { result ≡ frame page.now image.now }
{
    let density = image.settings.resolution.number();
    Stroke {
        pen: 1,
        colour: BLACK,
        width: 0,
        window: whole_page(page),
        ax: in_range(i128::from(image.corner.x)),
        ay: in_range(i128::from(image.corner.y)),
        bx: far_end(density, image.corner.x, row_count(&image.numbers)),
        by: far_end(density, image.corner.y, image.width),
    }
}

// The window that is the page.
fn whole_page(page: &Page) -> Window
    ensures { result ≡ page_window page.now }
{
    Window {
        x0: 0,
        y0: 0,
        x1: (16 * page.width) as i32,
        y1: (16 * page.height) as i32,
    }
}

// Where so many rows, or dots of a row, end that begin there.
fn far_end(density: u32, from: i32, count: u64) -> i32
    requires { 1 ≤ density }
    ensures value { result ≡ far_end density from count }
    ensures near { nat_abs result ≤ 134217712 }
{
    in_range(i128::from(from) + reach(density, count) as i128)
}

// How far they reach, in grains, rounded up.
fn reach(density: u32, count: u64) -> u128
    requires { 1 ≤ density }
    ensures value { result ≡ reach density count }
    ensures few { result ≤ 1208925819614629174706176 }
{
    let density = u128::from(density);
    (16_256 * u128::from(count) + density - 1) / density
}

// A number of a place, or the nearest one that an end of a stroke may have.
fn in_range(z: i128) -> i32
    ensures value { result ≡ in_range z }
    ensures near { nat_abs result ≤ 134217712 }
{
    let farthest = i128::from(FARTHEST_END);
    z.clamp(-farthest, farthest) as i32
}
