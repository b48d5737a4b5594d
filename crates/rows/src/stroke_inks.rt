//! The inks of a picture of strokes.
ghost use Rattle.std.specs.Prelude.{◌≡◌, ◌≤◌, length};
ghost use Rattle.plot_page.specs.declared.stroke.TheConstants.{MOST_STROKES};

use picture_out::{Ink, Inks};
use plot_page::Stroke;

/// The pens and colours of strokes: ink `n`, counted from 1, is that of the `n`-th stroke. A picture
/// has at most 4,194,304 strokes.
#[derive(Clone, Copy)]
pub struct StrokeInks<'a> {
    strokes: &'a [Stroke],
    ghost few: { length strokes.now ≤ MOST_STROKES },
}

impl<'a> StrokeInks<'a> {
    ghost use Rattle.rows.specs.Pictures.{inks_of};
    ghost use Rattle.rows.specs.Inks.{inks_held};

    /// The inks of these strokes, in their order.
    pub fn new(strokes: &'a [Stroke]) -> StrokeInks<'a>
        requires few { length strokes.now ≤ MOST_STROKES }
        ensures inks { inks_held result ≡ inks_of strokes.entry.now }
    {
        StrokeInks { strokes }
    }
}

impl<'a> Inks for StrokeInks<'a> {
    ghost use Rattle.rows.specs.Inks.{inks_held};

    ghost inks = { inks_held };

    fn count(&self) -> u32 {
        self.strokes.len() as u32
    }

    #[inline(always)]
    fn ink(&self, n: u32) -> Ink {
        let stroke = &self.strokes[n as usize - 1];
        Ink {
            pen: stroke.pen,
            red: stroke.colour.red,
            green: stroke.colour.green,
            blue: stroke.colour.blue,
        }
    }
}
