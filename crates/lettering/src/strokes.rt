//! The strokes of a label, one at a time.
ghost use Rattle.std.specs.Prelude.{◌≡◌, ◌∷◌, [], IfSome, None, ⊤};
ghost use Rattle.std.specs.Iterator.{YieldsFirst, MakesProgress, item_count};
ghost use Rattle.lettering.specs.Bounds.{IsStrokeWithin};

use crate::written::Written;
use exact::Spot;
use std::marker::Model;

/// The strokes of a label that are to come, in order, each as the offsets of its two ends from the label's
/// start, in grains. A dot has its offset twice.
#[derive(Drop)]
pub struct Strokes<'a> {
    written: Written<'a>,
}

impl<'a> Model for Strokes<'a> {
    ghost use Rattle.std.specs.Prelude.{List};
    ghost use Rattle.exact.specs.declared.spot.Spot.{Spot};
    ghost use Rattle.lettering.specs.Left.{written_left, IsWritten};

    ghost Value = { List (Spot × Spot) };

    ghost view = { λ s. written_left s.written };

    ghost invariant = { λ s. IsWritten s.written };
}

impl<'a> Strokes<'a> {
    ghost use Rattle.lettering.specs.Left.{written_left, IsWritten};

    // Those of a label, or of the rest of it.
    pub(crate) fn of(written: Written<'a>) -> Strokes<'a>
        requires { IsWritten written }
        ensures { result ≡ written_left written.entry }
    {
        Strokes { written }
    }

    /// The next stroke. Its ends are within 2^95 grains of the label's start.
    #[inline(always)]
    pub fn next_stroke(&mut self) -> Option<(Spot, Spot)>
        ensures taken { IfSome result (λ stroke. self.old ≡ stroke ∷ self.new) }
        ensures none { result ≡ None → self.old ≡ [] }
        ensures within { IfSome result IsStrokeWithin }
    {
        self.written.next()
    }
}

impl<'a> Iterator for Strokes<'a> {
    type Item = (Spot, Spot);

    ghost next_gives = { YieldsFirst (λ s. s) };

    ghost remaining = { item_count (λ s. s) };

    fn next(&mut self) -> Option<(Spot, Spot)>
        ensures steps { YieldsFirst (λ s. s) self.old result self.new }
        ensures goes { MakesProgress (λ _. ⊤) (item_count (λ s. s)) self.old result self.new }
        ensures within { IfSome result IsStrokeWithin }
    {
        self.written.next()
    }
}
