//! The colours and the widths of pens that the options give.
ghost use Rattle.std.specs.Prelude.{◌≡◌, ◌≢◌, ◌<◌, ℕ, Err, IfOk, option_map};
ghost use Rattle.std.specs.Option.{option_and_then, option_or};
ghost use Rattle.std.specs.Result.{result_err};
ghost use Rattle.clap.specs.Words.{found_of, rows_of};
ghost use Rattle.carousel.specs.Carousels.{colour_of, width_of};
ghost use Rattle.pen_list.specs.Assignments.{given};
ghost use Rattle.pen_list.specs.Colours.{colour_written};
ghost use Rattle.pen_list.specs.Widths.{width_written};
ghost use Rattle.command_line.specs.Faults.{refusal_of};
ghost use Rattle.command_line.specs.Lines.{IsCarouselOf, bad_colours, bad_widths, carousel_fault, colours_text, widths_text};

use crate::fault::LineFault;
use carousel::Carousel;
use clap::ArgMatches;
use pen_list::{read_colours, read_widths};

/// The colours and the widths of the pens to which the options give some.
pub(crate) fn carousel_of<'a>(options: &ArgMatches<'a>) -> Result<Carousel, LineFault<'a>>
    ensures carousel { IfOk result (IsCarouselOf (rows_of (found_of options.now))) }
    ensures pens { result ≢ Err LineFault.Pens }
    ensures refused { option_map refusal_of (result_err result) ≡ carousel_fault (rows_of (found_of options.now)) }
{
    let coloured = coloured(options, Carousel::empty())?;
    widened(options, coloured)
}

// A carousel with the colours of the option's list.
fn coloured<'a>(options: &ArgMatches<'a>, carousel: Carousel) -> Result<Carousel, LineFault<'a>>
    ensures colours { IfOk result (λ read. (pen : ℕ) → pen < 256 → colour_of read pen ≡ option_or
        (option_and_then (λ list. given colour_written list pen) (colours_text (rows_of (found_of options.now)))) (colour_of carousel pen)) }
    ensures widths { IfOk result (λ read. (pen : ℕ) → pen < 256 → width_of read pen ≡ width_of carousel pen) }
    ensures pens { result ≢ Err LineFault.Pens }
    ensures refused { option_map refusal_of (result_err result) ≡ bad_colours (rows_of (found_of options.now)) }
{
    let Some(list) = options.get_str("colours") else {
        return Ok(carousel);
    };
    match read_colours(list, carousel) {
        Ok(read) => Ok(read),
        Err(item) => Err(LineFault::Colours(item)),
    }
}

// A carousel with the widths of the option's list.
fn widened<'a>(options: &ArgMatches<'a>, carousel: Carousel) -> Result<Carousel, LineFault<'a>>
    ensures widths { IfOk result (λ read. (pen : ℕ) → pen < 256 → width_of read pen ≡ option_or
        (option_and_then (λ list. given width_written list pen) (widths_text (rows_of (found_of options.now)))) (width_of carousel pen)) }
    ensures colours { IfOk result (λ read. (pen : ℕ) → pen < 256 → colour_of read pen ≡ colour_of carousel pen) }
    ensures pens { result ≢ Err LineFault.Pens }
    ensures refused { option_map refusal_of (result_err result) ≡ bad_widths (rows_of (found_of options.now)) }
{
    let Some(list) = options.get_str("widths") else {
        return Ok(carousel);
    };
    match read_widths(list, carousel) {
        Ok(read) => Ok(read),
        Err(item) => Err(LineFault::Widths(item)),
    }
}
