//! What images show at pixels.
ghost use Rattle.std.specs.Prelude.{◌≡◌, ◌≤◌, ◌<◌, ◌^◌, ◌&&◌, pos, nat_abs};
ghost use Rattle.plot_page.specs.Resolutions.{columns_of, rows_of};
ghost use Rattle.stroke_raster.specs.Bounds.{Within};
ghost use Rattle.stroke_raster.specs.Covers.{in_window};
ghost use Rattle.stroke_raster.specs.Gap.{scaled, way};
ghost use Rattle.image_raster.specs.Placed.{shape};
ghost use Rattle.image_raster.specs.Ways.{vector};
ghost use Rattle.image_raster.specs.Dots.{corner, is_number, shown_in, shown_on_way, shown_at_pixel};

use crate::placed::PlacedImage;
use crate::way::{Way, across, along, from_corner, number_at};
use image_colours::Colour;
use plot_page::{Dots, Page, Window};
use stroke_raster::{Vector, centre_of, is_between};

impl<'a> PlacedImage<'a> {
    /// The colour that it shows at the centre of a pixel, if it shows one.
    pub fn shown_at_pixel(&self, page: &Page, dots: Dots, row: u32, column: u32) -> Option<Colour>
        requires row_in { row < rows_of page.now dots }
        requires column_in { column ≤ columns_of page.now dots }
        ensures { result ≡ shown_at_pixel (shape self.now) page.now dots row column }
    {
        let place = centre_of(page, dots, row, column);
        if !is_in_window(self.frame.window, dots, place) {
            return None;
        }
        self.shown_on_way(dots, self.way_to(dots, place))
    }

    // The way from its corner to a place.
    pub(crate) fn way_to(&self, dots: Dots, place: Vector) -> Way
        requires { Within (2 ^ 34) place }
        ensures value { vector result ≡ way (scaled (pos dots.resolution) (corner (shape self.now))) place }
        ensures x_small { nat_abs result.x ≤ 2 ^ 45 }
        ensures y_small { nat_abs result.y ≤ 2 ^ 45 }
    {
        Way {
            x: from_corner(dots, self.frame.ax, place.x),
            y: from_corner(dots, self.frame.ay, place.y),
        }
    }

    // The colour that it shows where a way leads from its corner.
    fn shown_on_way(&self, dots: Dots, way: Way) -> Option<Colour>
        requires x_small { nat_abs way.x ≤ 2 ^ 45 }
        requires y_small { nat_abs way.y ≤ 2 ^ 45 }
        ensures { result ≡ shown_on_way (shape self.now) dots.resolution (vector way) }
    {
        let density = self.image.settings.resolution.number();
        self.shown_in(
            number_at(density, dots, across(self.turn, way)),
            number_at(density, dots, along(self.turn, way)),
        )
    }

    // What it shows at numbers that may be no rows and no dots.
    fn shown_in(&self, row: i128, column: i128) -> Option<Colour>
        ensures { result ≡ shown_in self.now.image.now row column }
    {
        if is_number(row) && is_number(column) {
            self.image.shown_in_order(row as u32, column as u32)
        } else {
            None
        }
    }
}

// Whether a place lies in a window.
fn is_in_window(window: Window, dots: Dots, place: Vector) -> bool
    ensures { result ≡ in_window window dots.resolution place }
{
    is_between(window.x0, window.x1, dots, place.x)
        && is_between(window.y0, window.y1, dots, place.y)
}

/// Whether a number may be that of a row or of a dot.
pub fn is_number(number: i128) -> bool
    ensures { result ≡ is_number number }
{
    0 <= number && number <= 4_294_967_295
}
