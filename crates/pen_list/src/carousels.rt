//! Lists of colours and of widths, which give them to pens of a carousel.
ghost use Rattle.std.specs.Prelude.{◌≡◌, ◌<◌, ◌≤◌, ℕ, if◌then◌else◌, Some, None, IfSome, is_some};
ghost use Rattle.std.specs.Prelude.{IfOk, MatchResult};
ghost use Rattle.std.specs.Option.{option_or};
ghost use Rattle.plot_page.specs.Pens.{has_pen};
ghost use Rattle.plot_page.specs.declared.stroke.TheConstants.{GREATEST_WIDTH};
ghost use Rattle.carousel.specs.Carousels.{colour_of, width_of};
ghost use Rattle.pen_list.specs.Assignments.{first_bad, given, is_assignment, pens_of, value_of};
ghost use Rattle.pen_list.specs.Colours.{colour_written};
ghost use Rattle.pen_list.specs.Lists.{is_listed};
ghost use Rattle.pen_list.specs.Widths.{width_written};

use crate::assignment::sides;
use crate::colour::read_colour;
use crate::list::read_pens;
use crate::width::read_width;
use carousel::Carousel;
use plot_page::{Colour, PenSet};

/// A carousel with the colours that a text gives pens, or the first assignment in it that is bad.
/// Assignments are separated by commas. Each is `PENS=COLOUR`, where PENS is `n`, `n-m` or `all`, as
/// `read_pens` reads it. The last one that names a pen decides. A colour is six hexadecimal digits, six
/// or three after `#`, of which three count twice each, or one of the sixteen names of HTML 4 or
/// `grey`. Digits and names may have capitals.
pub fn read_colours<'a>(text: &'a str, carousel: Carousel) -> Result<Carousel, &'a str>
    ensures bad { MatchResult result
        (λ _. first_bad colour_written text.now ≡ None)
        (λ assignment. first_bad colour_written text.now ≡ Some assignment.now) }
    ensures colours { IfOk result (λ read. (pen : ℕ) → pen < 256 → colour_of read pen
        ≡ option_or (given colour_written text.now pen) (colour_of carousel pen)) }
    ensures widths { IfOk result (λ read. (pen : ℕ) → pen < 256 → width_of read pen ≡ width_of carousel pen) }
{
    let mut read = carousel;
    for assignment in text.split(',') {
        let Some((pens, colour)) = colour_given(assignment) else {
            return Err(assignment);
        };
        read = with_colours(read, pens, colour);
    }
    Ok(read)
}

/// A carousel with the widths that a text gives pens, or the first assignment in it that is bad.
/// Assignments are separated by commas. Each is `PENS=WIDTH`, where PENS is `n`, `n-m` or `all`, as
/// `read_pens` reads it. The last one that names a pen decides. A width is 0 to 20 millimetres: digits,
/// perhaps with a point before, among or after them, of which those after the sixth decimal do not
/// count. It is rounded to grains as PW does.
pub fn read_widths<'a>(text: &'a str, carousel: Carousel) -> Result<Carousel, &'a str>
    ensures bad { MatchResult result
        (λ _. first_bad width_written text.now ≡ None)
        (λ assignment. first_bad width_written text.now ≡ Some assignment.now) }
    ensures widths { IfOk result (λ read. (pen : ℕ) → pen < 256 → width_of read pen
        ≡ option_or (given width_written text.now pen) (width_of carousel pen)) }
    ensures colours { IfOk result (λ read. (pen : ℕ) → pen < 256 → colour_of read pen ≡ colour_of carousel pen) }
{
    let mut read = carousel;
    for assignment in text.split(',') {
        let Some((pens, width)) = width_given(assignment) else {
            return Err(assignment);
        };
        read = with_widths(read, pens, width);
    }
    Ok(read)
}

// The pens that an assignment names, and the colour that it gives them.
fn colour_given(assignment: &str) -> Option<(PenSet, Colour)>
    ensures found { is_some result ≡ is_assignment colour_written assignment.now }
    ensures pens { IfSome result (λ given. (pen : ℕ) → pen < 256
        → has_pen given.0 pen ≡ is_listed (pens_of assignment.now) pen) }
    ensures colour { IfSome result (λ given. colour_written (value_of assignment.now) ≡ Some given.1) }
{
    let (pens, colour) = sides(assignment);
    Some((read_pens(pens)?, read_colour(colour)?))
}

// The pens that an assignment names, and the width that it gives them.
fn width_given(assignment: &str) -> Option<(PenSet, u32)>
    ensures found { is_some result ≡ is_assignment width_written assignment.now }
    ensures pens { IfSome result (λ given. (pen : ℕ) → pen < 256
        → has_pen given.0 pen ≡ is_listed (pens_of assignment.now) pen) }
    ensures width { IfSome result (λ given. width_written (value_of assignment.now) ≡ Some given.1) }
    ensures range { IfSome result (λ given. given.1 ≤ GREATEST_WIDTH) }
{
    let (pens, width) = sides(assignment);
    Some((read_pens(pens)?, read_width(width)?))
}

// The carousel with one colour for some pens.
fn with_colours(carousel: Carousel, pens: PenSet, colour: Colour) -> Carousel
    ensures colours { (pen : ℕ) → pen < 256 → colour_of result pen
        ≡ (if has_pen pens pen then Some colour else colour_of carousel pen) }
    ensures widths { (pen : ℕ) → pen < 256 → width_of result pen ≡ width_of carousel pen }
{
    let mut all = carousel;
    for pen in 0..=255 {
        if pens.has(pen) {
            all = all.with_colour(pen, colour);
        }
    }
    all
}

// The carousel with one width for some pens.
fn with_widths(carousel: Carousel, pens: PenSet, width: u32) -> Carousel
    requires { width ≤ GREATEST_WIDTH }
    ensures widths { (pen : ℕ) → pen < 256 → width_of result pen
        ≡ (if has_pen pens pen then Some width else width_of carousel pen) }
    ensures colours { (pen : ℕ) → pen < 256 → colour_of result pen ≡ colour_of carousel pen }
{
    let mut all = carousel;
    for pen in 0..=255 {
        if pens.has(pen) {
            all = all.with_width(pen, width);
        }
    }
    all
}
