//! Rows of pixels at which an image shows nothing.
ghost use Rattle.std.specs.Prelude.{◌≡◌, ◌≤◌, ◌<◌, ◌^◌, ℕ, ℤ, true, nat_abs, None};
ghost use Rattle.plot_page.specs.Resolutions.{rows_of};
ghost use Rattle.image_raster.specs.Dots.{shown_at_pixel, shown_in};
ghost use Rattle.image_raster.specs.Placed.{shape};
ghost use Rattle.image_raster.specs.Ways.{shown_turned, with_x};

use crate::dots::is_number;
use crate::placed::PlacedImage;
use crate::way::{Way, across, along, number_at};
use directions::Turn;
use plot_page::{Dots, Page};
use stroke_raster::centre_of;

impl<'a> PlacedImage<'a> {
    /// Whether it surely shows nothing in a row of pixels: a row crosses one of its rows, or the dots of one number.
    pub fn misses(&self, page: &Page, dots: Dots, row: u32) -> bool
        requires { row < rows_of page.now dots }
        ensures { result ≡ true → (column : ℕ) → shown_at_pixel (shape self.now) page.now dots row column ≡ None }
    {
        self.misses_along(dots, self.way_to(dots, centre_of(page, dots, row, 0)))
    }

    // Whether it surely shows nothing at all ways as high as this one.
    fn misses_along(&self, dots: Dots, way: Way) -> bool
        requires x_small { nat_abs way.x ≤ 2 ^ 45 }
        requires y_small { nat_abs way.y ≤ 2 ^ 45 }
        ensures { result ≡ true → (x : ℤ) → shown_turned self.now.turn self.now.image.now dots.resolution (with_x x way) ≡ None }
    {
        let density = self.image.settings.resolution.number();
        match self.turn {
            Turn::None => self.has_no_dot(number_at(density, dots, along(Turn::None, way))),
            Turn::Quarter => self.has_no_row(number_at(density, dots, across(Turn::Quarter, way))),
            Turn::Half => self.has_no_dot(number_at(density, dots, along(Turn::Half, way))),
            Turn::ThreeQuarters => {
                self.has_no_row(number_at(density, dots, across(Turn::ThreeQuarters, way)))
            }
        }
    }

    // Whether no row has a dot of this number.
    fn has_no_dot(&self, number: i128) -> bool
        ensures { result ≡ true → (row : ℤ) → shown_in self.now.image.now row number ≡ None }
    {
        number < 0 || number >= i128::from(self.image.width)
    }

    // Whether it has no row of this number.
    fn has_no_row(&self, number: i128) -> bool
        ensures { result ≡ true → (column : ℤ) → shown_in self.now.image.now number column ≡ None }
    {
        !is_number(number) || self.image.numbers.find(number as u32).is_none()
    }
}
