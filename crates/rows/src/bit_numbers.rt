//! Numbers of a palette that are bits.
ghost use Rattle.std.specs.Prelude.{◌≡◌, ◌↔◌, length, true};
ghost use Rattle.rows.specs.Layouts.{AreBits};

use plot_page::{PenSet, Stroke};

/// Whether the number of each selected stroke is 1, so that the number of a pixel is 1 if it shows a stroke, and else 0.
pub fn are_bits(strokes: &[Stroke], pens: PenSet, numbers: &[u8]) -> bool
    requires size { length numbers.now ≡ length strokes.now }
    ensures bits { (result ≡ true) ↔ AreBits pens strokes.now numbers.now }
{
    for at in 0..strokes.len() {
        let stroke = strokes[at];
        if pens.has(stroke.pen) && numbers[at] != 1 {
            return false;
        }
    }
    true
}
