//! The page that a command line asks for, and the pixels of its picture.
ghost use Rattle.std.specs.Prelude.{◌≡◌, ◌≢◌, ◌&&◌, ◌||◌, None, Some, Err, IfOk, true, false, codes, is_some};
ghost use Rattle.std.specs.Result.{result_err};
ghost use Rattle.clap.specs.Words.{found_of, rows_of};
ghost use Rattle.plot_page.specs.Pages.{is_roll_side};
ghost use Rattle.command_line.specs.Lines.{IsChoiceOf, IsPageOf, choice_fault, gives_page, has_paper_and_side, is_for_printers, names_page};
ghost use Rattle.command_line.specs.Lines.{number_in, page_fault, page_size, pixels_fault};
ghost use Rattle.command_line.specs.Readings.{HasNumbers, MayHaveNumber, paper_or_fault};

use crate::defaults::defaults_of;
use crate::fault::LineFault;
use crate::groups::is_pcl;
use crate::line::written;
use crate::papers::{A4, names_plot, size_named};
use crate::subcommands::Kind;
use crate::values::{has_flag, is_given, number_if_given, number_of};
use clap::ArgMatches;
use picture_job::PageChoice;
use plot_page::Page;

/// The page that is given.
pub(crate) fn page_of<'a>(options: &ArgMatches<'a>) -> Result<Page, LineFault<'a>>
    ensures page { IfOk result (IsPageOf (rows_of (found_of options.now))) }
    ensures pens { result ≢ Err LineFault.Pens }
    ensures refused { HasNumbers (rows_of (found_of options.now)) →
        result_err result ≡ page_fault (rows_of (found_of options.now)) }
{
    let (width, height) = size_of(options)?;
    let left = number_of(options, "left")?;
    let below = number_of(options, "below")?;
    Page::roll(width, height, left, below).ok_or(LineFault::Words)
}

// The width and the height of the page. By default they are those of A4 in landscape.
fn size_of<'a>(options: &ArgMatches<'a>) -> Result<(u32, u32), LineFault<'a>>
    ensures size { IfOk result (λ size. page_size (rows_of (found_of options.now)) ≡ Some size) }
    ensures one_way { IfOk result (λ _. has_paper_and_side (rows_of (found_of options.now)) ≡ false) }
    ensures pens { result ≢ Err LineFault.Pens }
    ensures within { HasNumbers (rows_of (found_of options.now)) →
        IfOk result (λ size. (is_roll_side size.0 && is_roll_side size.1) ≡ true) }
    ensures refused { HasNumbers (rows_of (found_of options.now)) →
        result_err result ≡ page_fault (rows_of (found_of options.now)) }
{
    let width = number_if_given(options, "width")?;
    let height = number_if_given(options, "height")?;
    match options.get_str("page") {
        None => Ok((width.unwrap_or(A4.0), height.unwrap_or(A4.1))),
        Some(name) => paper_size(name, width, height),
    }
}

// The size that this name gives, beside which no width and no height may be given.
fn paper_size<'a>(
    name: &'a str,
    width: Option<u32>,
    height: Option<u32>,
) -> Result<(u32, u32), LineFault<'a>>
    ensures { result ≡ paper_or_fault name.now (is_some width || is_some height) }
{
    let size = size_named(name).ok_or(LineFault::Paper)?;
    if width.is_some() || height.is_some() {
        return Err(LineFault::Size);
    }
    Ok(size)
}

/// How many pixels the picture is to have, if it is asked for so, and not by dots per inch, nor for a printer.
pub(crate) fn pixels_of<'a>(
    kind: Kind,
    options: &ArgMatches<'a>,
) -> Result<Option<u32>, LineFault<'a>>
    ensures pixels { IfOk result (λ pixels. number_in (rows_of (found_of options.now)) (codes "size") ≡ pixels) }
    ensures sized { IfOk result (λ _. pixels_fault kind (rows_of (found_of options.now)) ≡ None) }
    ensures pens { result ≢ Err LineFault.Pens }
    ensures refused { MayHaveNumber (rows_of (found_of options.now)) (codes "size") 16 20000 →
        result_err result ≡ pixels_fault kind (rows_of (found_of options.now)) }
{
    let pixels = number_if_given(options, "size")?;
    if !is_given(options, "size") {
        return Ok(pixels);
    }
    if is_given(options, "dots") {
        return Err(LineFault::Pixels);
    }
    if is_for_printers(kind, options) {
        return Err(LineFault::PrinterPixels);
    }
    Ok(pixels)
}

// Whether PCL is written.
fn is_for_printers(kind: Kind, options: &ArgMatches<'_>) -> bool
    ensures { result ≡ is_for_printers kind (rows_of (found_of options.now)) }
{
    match written(kind, options) {
        Some(output) => is_pcl(output),
        None => false,
    }
}

/// Which page the plot is drawn on, and in how many pixels.
pub(crate) fn choice_of<'a>(
    kind: Kind,
    options: &ArgMatches<'a>,
    pixels: Option<u32>,
) -> Result<PageChoice, LineFault<'a>>
    requires { number_in (rows_of (found_of options.now)) (codes "size") ≡ pixels }
    ensures choice { IfOk result (IsChoiceOf kind (rows_of (found_of options.now))) }
    ensures pens { result ≢ Err LineFault.Pens }
    ensures refused { MayHaveNumber (rows_of (found_of options.now)) (codes "margin") 0 100 →
        result_err result ≡ choice_fault kind (rows_of (found_of options.now)) }
{
    let defaults = defaults_of(kind);
    let margin = number_if_given(options, "margin")?;
    let is_free = defaults.fits && !gives_page(options);
    let asked = names_page(options) || is_free;
    if has_flag(options, "fit") || is_free {
        let margin = Some(margin.unwrap_or(defaults.margin));
        return Ok(PageChoice {
            asked,
            margin,
            pixels,
        });
    }
    match margin {
        None => Ok(PageChoice {
            asked,
            margin,
            pixels,
        }),
        Some(_) => Err(LineFault::Margin),
    }
}

// Whether the plot is named as the page.
fn names_page(options: &ArgMatches<'_>) -> bool
    ensures { result ≡ names_page (rows_of (found_of options.now)) }
{
    match options.get_str("page") {
        Some(name) => names_plot(name),
        None => false,
    }
}

// Whether a paper or the plot is named as the page, or a width or a height is given.
fn gives_page(options: &ArgMatches<'_>) -> bool
    ensures { result ≡ gives_page (rows_of (found_of options.now)) }
{
    is_given(options, "page") || is_given(options, "width") || is_given(options, "height")
}
