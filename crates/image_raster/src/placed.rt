//! Images as they are painted.
ghost use Rattle.std.specs.Prelude.{◌≡◌};
ghost use Rattle.raster_graphics.specs.Laws.{RowsAscend};
ghost use Rattle.page_images.specs.Frames.{row_count};
ghost use Rattle.page_images.specs.PageImages.{counted};

use directions::Turn;
use page_images::PageImage;
use plot_page::Stroke;
use raster_graphics::Image;

/// An image on a page, among the strokes that are painted.
#[derive(Clone, Copy)]
pub struct PlacedImage<'a> {
    /// Its dots.
    pub image: &'a Image,
    /// How many rows it has.
    pub rows: u64,
    /// Where it lies.
    pub frame: Stroke,
    /// How it is turned about its first corner.
    pub turn: Turn,
    /// How many of these strokes are drawn before it.
    pub before: u32,
    pub ghost ordered: { RowsAscend image.now },
    pub ghost enough: { rows ≡ row_count image.now.numbers },
}

impl<'a> PlacedImage<'a> {
    ghost use Rattle.image_raster.specs.Placed.{shape};

    /// An image on a page, where the strokes of its sheet are painted from this one on.
    pub fn new(image: &'a PageImage, first: usize) -> PlacedImage<'a>
        ensures { shape result ≡ counted first image.entry.now }
    {
        let rows = image.rows();
        PlacedImage {
            image: &image.image,
            rows,
            frame: image.frame,
            turn: image.turn,
            before: (image.before as usize).saturating_sub(first) as u32,
        }
    }
}
