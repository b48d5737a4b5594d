//! A range of pens.
ghost use Rattle.std.specs.Prelude.{◌≡◌, ◌<◌, ◌==◌, ◌||◌, ℕ, IfSome, is_some, position};
ghost use Rattle.plot_page.specs.Pens.{has_pen};
ghost use Rattle.pen_list.specs.Lists.{hyphen, is_between, is_range, range_has};

use crate::number::read_pen;
use plot_page::PenSet;

/// The pens from the first to the last.
#[derive(Clone, Copy)]
pub(crate) struct PenRange {
    pub(crate) first: u8,
    pub(crate) last: u8,
}

impl PenRange {
    // The range that a text is: `n-m` with n not above m, or `n`, the range of one pen.
    pub(crate) fn read(text: &[u8]) -> Option<PenRange>
        ensures found { is_some result ≡ is_range text.now }
        ensures pens { IfSome result (λ range. (pen : ℕ) → range_has text.now pen
            ≡ is_between range.first pen range.last) }
    {
        let Some(at) = first_hyphen(text) else {
            let pen = read_pen(text)?;
            return Some(PenRange {
                first: pen,
                last: pen,
            });
        };
        let first = read_pen(&text[..at])?;
        let last = read_pen(&text[at + 1..])?;
        if first > last {
            return None;
        }
        Some(PenRange { first, last })
    }

    // A set of pens and those of the range.
    pub(crate) fn added_to(self, pens: PenSet) -> PenSet
        ensures { (pen : ℕ) → pen < 256 → has_pen result pen
            ≡ (has_pen pens pen || is_between self.first pen self.last) }
    {
        let mut all = pens;
        for pen in self.first..=self.last {
            all = all.with(pen);
        }
        all
    }
}

// Where the first hyphen is.
fn first_hyphen(text: &[u8]) -> Option<usize>
    ensures { result ≡ position (λ byte. byte == hyphen) text.now }
{
    text.iter().position(|byte| *byte == b'-')
}
