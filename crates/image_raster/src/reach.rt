//! Which pixels an image may show something at.
ghost use Rattle.std.specs.Prelude.{◌≡◌, ◌+◌, ◌*◌, ◌<◌, ◌≤◌, ◌^◌, ℕ, length, get_or, pos, nat_abs, None, ◌<ℤ◌, ◌≤ℤ◌, ◌*ℤ◌};
ghost use Rattle.plot_page.specs.declared.page.Page.{Page};
ghost use Rattle.stroke_raster.specs.declared.vector.Vector.{Vector};
ghost use Rattle.image_raster.specs.Dots.{number_at, shown_on_way, shown_at_pixel};
ghost use Rattle.image_raster.specs.Placed.{shape};
ghost use Rattle.image_raster.specs.Ways.{away, goes_right};

use crate::placed::PlacedImage;
use crate::way::from_corner;
use directions::Turn;
use exact::floored;
use plot_page::Dots;

/// Columns of pixels, from `low` on, before `end`.
#[derive(Clone, Copy)]
pub struct Columns {
    pub low: u32,
    pub end: u32,
}

impl<'a> PlacedImage<'a> {
    /// The columns of pixels, among so many, in which it may show something.
    pub fn columns_reached(&self, dots: Dots, columns: u32) -> Columns
        ensures within { result.end ≤ columns }
        ensures before { (page : Page) (row column : ℕ) → column < result.low
            → shown_at_pixel (shape self.now) page dots row column ≡ None }
        ensures after { (page : Page) (row column : ℕ) → result.end ≤ column → column < columns
            → shown_at_pixel (shape self.now) page dots row column ≡ None }
    {
        let corner = self.corner_along_x(dots);
        let density = self.image.settings.resolution.number();
        let extent = extent_of(self.count_along_x(), density, dots);
        if self.goes_right() {
            columns_between(corner, corner + extent, columns)
        } else {
            columns_between(corner - extent + 1, corner + 1, columns)
        }
    }

    // Where its corner is along x, in grains divided by the resolution.
    fn corner_along_x(&self, dots: Dots) -> i128
        ensures value { result ≡ pos dots.resolution *ℤ self.now.frame.ax }
        ensures small { nat_abs result ≤ 2 ^ 45 }
    {
        -from_corner(dots, self.frame.ax, 0)
    }

    // Whether its rows, or the dots of its rows, go in the direction of x, and not against it.
    fn goes_right(&self) -> bool
        ensures { result ≡ goes_right self.now.turn }
    {
        matches!(self.turn, Turn::None | Turn::ThreeQuarters)
    }

    // How many rows, or dots of a row, it has along x.
    fn count_along_x(&self) -> u64
        ensures { (r : ℕ) (w : Vector) → pos result ≤ℤ number_at self.now.image.now.settings.resolution r (away self.now.turn w.x)
            → shown_on_way (shape self.now) r w ≡ None }
    {
        match self.turn {
            Turn::None => self.rows,
            Turn::Quarter => self.image.width,
            Turn::Half => self.rows,
            Turn::ThreeQuarters => self.image.width,
        }
    }
}

// How far so many rows or dots reach at most, in grains divided by the resolution.
fn extent_of(count: u64, density: u32, dots: Dots) -> i128
    requires some { 1 ≤ density }
    ensures some { pos 0 ≤ℤ result }
    ensures small { nat_abs result ≤ 2 ^ 90 }
    ensures far { (z : ℕ) → result ≤ℤ pos z → count * (16256 * dots.resolution) ≤ z * density }
{
    (u128::from(count) * 16_256 * u128::from(dots.resolution) / u128::from(density) + 1) as i128
}

// The columns of pixels, of so many, whose centres lie from a coordinate on, before another.
fn columns_between(low: i128, end: i128, columns: u32) -> Columns
    requires low_in { nat_abs low ≤ 2 ^ 100 }
    requires end_in { nat_abs end ≤ 2 ^ 100 }
    ensures within { result.end ≤ columns }
    ensures before { (column : ℕ) → column < result.low → pos ((2 * column + 1) * 8128) <ℤ low }
    ensures after { (column : ℕ) → result.end ≤ column → column < columns → end ≤ℤ pos ((2 * column + 1) * 8128) }
{
    Columns {
        low: count_before(low, columns),
        end: count_before(end, columns),
    }
}

// How many columns of pixels, of so many, have their centres left of a coordinate, in grains divided by the resolution.
fn count_before(x: i128, columns: u32) -> u32
    requires { nat_abs x ≤ 2 ^ 100 }
    ensures most { result ≤ columns }
    ensures before { (column : ℕ) → column < result → pos ((2 * column + 1) * 8128) <ℤ x }
    ensures rest { (column : ℕ) → result ≤ column → column < columns → x ≤ℤ pos ((2 * column + 1) * 8128) }
{
    let count = floored(x + 8127, 16_256);
    if count < 0 {
        0
    } else if count > i128::from(columns) {
        columns
    } else {
        count as u32
    }
}
