//! A list of pens.
ghost use Rattle.std.specs.Prelude.{◌≡◌, ◌<◌, ◌||◌, ℕ, IfSome, is_some};
ghost use Rattle.plot_page.specs.Pens.{has_pen};
ghost use Rattle.pen_list.specs.Lists.{are_ranges, is_listed, is_pen_list, ranges_have};

use crate::range::PenRange;
use plot_page::PenSet;

/// The pens that a text lists, or `None` if it is no list of pens. A list is `all`, which is the pens
/// 1 to 255, or ranges separated by single commas. A range is `n-m`, with n not above m, or just `n`.
/// Each of n and m is 1 to 255, in one to three decimal digits, so `1,3,5-7` lists 1, 3, 5, 6 and 7.
pub fn read_pens(text: &str) -> Option<PenSet>
    ensures found { is_some result ≡ is_pen_list text.now }
    ensures pens { IfSome result (λ pens. (pen : ℕ) → pen < 256 → has_pen pens pen ≡ is_listed text.now pen) }
{
    if text == "all" {
        return Some(PenSet::all());
    }
    read_ranges(text.as_bytes())
}

// The pens of the ranges that commas separate in a text.
fn read_ranges(text: &[u8]) -> Option<PenSet>
    ensures found { is_some result ≡ are_ranges text.now }
    ensures pens { IfSome result (λ pens. (pen : ℕ) → pen < 256 → has_pen pens pen ≡ ranges_have text.now pen) }
{
    let mut pens = PenSet::none();
    let mut from = 0;
    for (at, byte) in text.iter().enumerate() {
        if *byte == b',' {
            pens = PenRange::read(&text[from..at])?.added_to(pens);
            from = at + 1;
        }
    }
    Some(PenRange::read(&text[from..])?.added_to(pens))
}
