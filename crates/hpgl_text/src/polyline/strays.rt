//! The strays within a piece of a PE.
ghost use Rattle.std.specs.Prelude.{◌≡◌, [], ◌+◌, ◌<◌, ◌^◌, length};
ghost use Rattle.std.specs.Bool.{OnTrue};
ghost use Rattle.std.specs.Iterator.{YieldsFirst, item_count};
ghost use Rattle.hpgl_text.specs.Polylines.{strays};

use crate::bytes::is_blank_byte;
use crate::polyline::entry::{Entry, Part};
use std::marker::Model;

/// The strays that are to come among the blanks and strays of a gap, whose first byte has a place in
/// the plot.
#[derive(Drop)]
pub struct Strays<'a> {
    at: usize,
    gap: &'a [u8],
}

impl<'a> Model for Strays<'a> {
    ghost use Rattle.std.specs.Prelude.{◌+◌, ◌<◌, ◌^◌, List, length};
    ghost use Rattle.hpgl_text.specs.EntryShapes.{EntryShape};
    ghost use Rattle.hpgl_text.specs.Polylines.{strays};

    ghost Value = { List EntryShape };

    ghost view = { λ s. strays s.at s.gap.now };

    ghost invariant = { λ s. s.at + length s.gap.now < 2 ^ 63 };
}

impl<'a> Strays<'a> {
    /// The strays of a gap at this place.
    pub fn new(at: usize, gap: &'a [u8]) -> Strays<'a>
        requires { at + length gap.now < 2 ^ 63 }
        ensures { result ≡ strays at gap.now }
    {
        Strays { at, gap }
    }

    /// Whether the whole gap was passed, so that no strays are to come.
    #[inline(always)]
    pub fn is_done(&self) -> bool
        ensures { OnTrue result (self.now ≡ []) }
    {
        self.gap.is_empty()
    }
}

impl<'a> Iterator for Strays<'a> {
    type Item = Entry;

    ghost next_gives = { YieldsFirst (λ s. s) };

    ghost remaining = { item_count (λ s. s) };

    #[inline]
    fn next(&mut self) -> Option<Entry> {
        'blanks: while let [byte, rest @ ..] = self.gap {
            let at = self.at;
            self.at = at + 1;
            self.gap = rest;
            if !is_blank_byte(*byte) {
                return Some(Entry {
                    at,
                    what: Part::Stray(*byte),
                });
            }
        }
        None
    }
}
