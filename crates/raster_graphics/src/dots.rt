//! The dots of an image that is done.
ghost use Rattle.std.specs.Prelude.{◌≡◌, ◌^◌, ◌<◌, Some};
ghost use Rattle.raster_graphics.specs.Laws.{RowsAscend};
ghost use Rattle.raster_graphics.specs.Dots.{colour_in, colour_at, if_shown, shown_at};

use crate::image::Image;
use image_colours::{Colour, colour_of};

impl Image {
    /// The colour of a dot, if its row was sent and has it; rows and columns are counted from 0.
    pub fn colour_at(&self, row: u32, column: u32) -> Option<Colour>
        ensures { result ≡ colour_at self.now row column }
    {
        if column as u64 >= self.width {
            return None;
        }
        let position = self.numbers.position_of(row)?;
        Some(self.colour_in(position, column))
    }

    /// The colour that it shows at a dot: none where its row was not sent or has no such dot, and, unless white is opaque, where
    /// that is white.
    pub fn shown_at(&self, row: u32, column: u32) -> Option<Colour>
        ensures { result ≡ shown_at self.now row column }
    {
        let colour = self.colour_at(row, column)?;
        self.if_shown(colour)
    }

    /// The same of an image whose rows ascend, as those of a machine do, without a search through all of them.
    pub fn shown_in_order(&self, row: u32, column: u32) -> Option<Colour>
        requires { RowsAscend self.now }
        ensures { result ≡ shown_at self.now row column }
    {
        if column as u64 >= self.width {
            return None;
        }
        let position = self.numbers.find(row)?;
        self.if_shown(self.colour_in(position, column))
    }

    // A colour that it has, if it shows it.
    fn if_shown(&self, colour: Colour) -> Option<Colour>
        ensures { result ≡ if_shown self.now.settings.is_opaque (Some colour) }
    {
        if self.settings.is_opaque || !colour.is_white() {
            Some(colour)
        } else {
            None
        }
    }

    /// The colour of a dot of the row at a position among those that were sent.
    pub fn colour_in(&self, position: usize, column: u32) -> Colour
        requires { position < 2 ^ 61 }
        ensures { result ≡ colour_in self.now position column }
    {
        let coding = self.settings.coding;
        let first = position * coding.plane_count();
        let planes = [
            self.planes.get(first),
            self.planes.get(first + 1),
            self.planes.get(first + 2),
            self.planes.get(first + 3),
            self.planes.get(first + 4),
            self.planes.get(first + 5),
            self.planes.get(first + 6),
            self.planes.get(first + 7),
        ];
        colour_of(coding, &self.settings.palette, &planes, column)
    }
}
