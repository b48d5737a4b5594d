//! What a picture shows.
ghost use Rattle.std.specs.Prelude.{◌≡◌};
ghost use Rattle.areas.specs.Views.{shapes_in};
ghost use Rattle.rows.specs.Contents.{contents_in, plain};

use areas::Shapes;
use page_images::PageImages;

/// Strokes and areas on a page, and images among them.
#[derive(Clone, Copy)]
pub struct Contents<'a> {
    pub shapes: Shapes<'a>,
    pub images: PageImages<'a>,
}

impl<'a> Contents<'a> {
    /// Strokes and areas without images.
    pub fn of_shapes(shapes: Shapes<'a>) -> Contents<'a>
        ensures contents { contents_in result ≡ plain (shapes_in shapes.entry) }
        ensures shapes { result.shapes ≡ shapes.entry }
    {
        Contents {
            shapes,
            images: PageImages::none(),
        }
    }
}
