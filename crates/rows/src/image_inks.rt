//! The inks of a picture of strokes and images.
ghost use Rattle.std.specs.Prelude.{◌≡◌, ◌≤◌, ◌<◌, ◌^◌, ◌+◌, length};
ghost use Rattle.plot_page.specs.declared.stroke.TheConstants.{MOST_STROKES};
ghost use Rattle.rows.specs.ImageCells.{ink_of_mark, ink_with};

use picture_out::{Ink, Inks};
use plot_page::Stroke;

// The least mark of a colour, which is that of black.
const LEAST_MARK: u32 = 2_147_483_648;

// How many inks there are: the last one is that of the mark of white.
const INK_COUNT: u32 = 2_164_260_863;

// The ink where there is neither a stroke nor an image.
const PAPER: Ink = Ink {
    pen: 0,
    red: 255,
    green: 255,
    blue: 255,
};

/// The inks of cells with images: that of the stroke at a position, or of a dot of an image, whose colour the cell marks.
#[derive(Clone, Copy)]
pub struct ImageInks<'a> {
    strokes: &'a [Stroke],
    ghost few: { length strokes.now ≤ MOST_STROKES },
}

impl<'a> ImageInks<'a> {
    ghost use Rattle.rows.specs.ImageCells.{inks_with};
    ghost use Rattle.rows.specs.Inks.{image_inks_held};

    /// The inks of these strokes, in their order, and of images among them.
    pub fn new(strokes: &'a [Stroke]) -> ImageInks<'a>
        requires few { length strokes.now ≤ MOST_STROKES }
        ensures inks { image_inks_held result ≡ inks_with strokes.entry.now }
    {
        ImageInks { strokes }
    }

    // The ink of a stroke, or of a dot.
    #[inline(always)]
    fn ink_of(&self, n: u32) -> Ink
        requires from_1 { 1 ≤ n }
        requires most { n < 2 ^ 31 + 2 ^ 24 }
        ensures { result ≡ ink_with self.now.strokes.now n }
    {
        if n >= LEAST_MARK {
            return ink_of_mark(n);
        }
        match self.strokes.get(n as usize - 1) {
            Some(stroke) => Ink {
                pen: stroke.pen,
                red: stroke.colour.red,
                green: stroke.colour.green,
                blue: stroke.colour.blue,
            },
            None => PAPER,
        }
    }
}

impl<'a> Inks for ImageInks<'a> {
    ghost use Rattle.rows.specs.Inks.{image_inks_held};

    ghost inks = { image_inks_held };

    fn count(&self) -> u32 {
        INK_COUNT
    }

    #[inline(always)]
    fn ink(&self, n: u32) -> Ink {
        self.ink_of(n)
    }
}

/// The ink of a dot of an image, by its mark.
#[inline(always)]
pub fn ink_of_mark(mark: u32) -> Ink
    requires least { 2 ^ 31 ≤ mark }
    requires most { mark < 2 ^ 31 + 2 ^ 24 }
    ensures { result ≡ ink_of_mark mark }
{
    let code = mark - LEAST_MARK;
    Ink {
        pen: 0,
        red: (code / 65_536) as u8,
        green: (code / 256 % 256) as u8,
        blue: (code % 256) as u8,
    }
}
