//! Laws of tiles.
ghost use Rattle.std.specs.Prelude.{◌≡◌, [], true};
ghost use Rattle.std.specs.List.{slice_index_or};
ghost use Rattle.image_colours.specs.Dots.{bits_at};
ghost use Rattle.raster_graphics.specs.Dots.{colour_in};
ghost use Rattle.image_data.specs.Pngs.{entry, is_black};

use raster_graphics::Image;

/// The bits of a row of an image that is black and white name the colours of its dots.
pub fn bits_are_dots(image: &Image, position: usize, column: u32)
    requires { is_black image.now.settings.coding ≡ true }
    ensures { entry image.now (bits_at 1 (slice_index_or image.now.planes position []) column) ≡ colour_in image.now position column }
{}
