//! How a plot is read: its profile, its sheets, and the characters of its labels.
ghost use Rattle.std.specs.Prelude.{◌≡◌, ◌≢◌, ◌&&◌, not, Err, IfOk, None};
ghost use Rattle.std.specs.Result.{result_err};
ghost use Rattle.clap.specs.Words.{found_of, rows_of};
ghost use Rattle.command_line.specs.Lines.{IsReadingOf, asks_each, each_fault, has_pages, is_long, is_report, reading_fault, sheet_in};
ghost use Rattle.command_line.specs.Readings.{HasNumbers, HasProfile, MayHaveNumber};
ghost use Rattle.command_line.specs.Sheets.{is_each, sheet_named, sheet_number};

use crate::characters::encoding_of;
use crate::fault::LineFault;
use crate::line::written;
use crate::subcommands::{Kind, Output};
use crate::values::{is_given, number_if_given};
use clap::ArgMatches;
use picture_job::{Reading, VectorFormat};
use plot_page::LONGEST_SIDE;

// The greatest sheet that may be asked for.
const GREATEST_SHEET: i64 = 4_194_304;

/// The profile, and in the profile full the sheet and the characters. Only a page of the profile full is longer than 65,536 units.
pub(crate) fn reading_of<'a>(options: &ArgMatches<'a>) -> Result<Reading, LineFault<'a>>
    ensures reading { IfOk result (IsReadingOf (rows_of (found_of options.now))) }
    ensures pens { result ≢ Err LineFault.Pens }
    ensures refused { HasProfile (rows_of (found_of options.now)) → HasNumbers (rows_of (found_of options.now)) →
        result_err result ≡ reading_fault (rows_of (found_of options.now)) }
{
    let sheet = sheet_of(options).ok_or(LineFault::BadSheet)?;
    let encoding = encoding_of(options).ok_or(LineFault::BadCharacters)?;
    let profile = options.get_str("profile").ok_or(LineFault::Words)?;
    if profile == "full" {
        return Ok(Reading::Full { sheet, encoding });
    }
    if profile != "core" {
        return Err(LineFault::Profile);
    }
    if is_given(options, "sheet") {
        return Err(LineFault::Sheet);
    }
    if is_given(options, "characters") {
        return Err(LineFault::Characters);
    }
    if is_long(options, "width") || is_long(options, "height") {
        return Err(LineFault::LongPage);
    }
    Ok(Reading::Core)
}

// Whether an option for a side of the page says that it is longer than those of the profile core.
fn is_long(options: &ArgMatches<'_>, name: &str) -> bool
    ensures { MayHaveNumber (rows_of (found_of options.now)) name.now 64 524288 →
        result ≡ is_long (rows_of (found_of options.now)) name.now }
{
    match number_if_given(options, name) {
        Ok(Some(units)) => units > LONGEST_SIDE,
        Ok(None) | Err(_) => false,
    }
}

// The sheet that is asked for: 0 for all of them, or the first one if none is given; `None` if the text asks for none.
fn sheet_of(options: &ArgMatches<'_>) -> Option<u32>
    ensures { result ≡ sheet_in (rows_of (found_of options.now)) }
{
    match options.get_str("sheet") {
        Some(text) => sheet_named(text),
        None => Some(1),
    }
}

/// Whether each sheet is to be written into a file of its own, which takes a picture and an output; in a PDF it has a page.
pub(crate) fn each_of<'a>(kind: Kind, options: &ArgMatches<'a>) -> Result<bool, LineFault<'a>>
    ensures each { IfOk result (λ each. each ≡ (asks_each (rows_of (found_of options.now))
        && not (has_pages kind (rows_of (found_of options.now))))) }
    ensures placed { IfOk result (λ _. each_fault kind (rows_of (found_of options.now)) ≡ None) }
    ensures pens { result ≢ Err LineFault.Pens }
    ensures refused { result_err result ≡ each_fault kind (rows_of (found_of options.now)) }
{
    if !asks_each(options) {
        return Ok(false);
    }
    if is_report(kind) {
        return Err(LineFault::NoPicture);
    }
    if has_pages(kind, options) {
        return Ok(false);
    }
    if !is_given(options, "output") {
        return Err(LineFault::NoFolder);
    }
    Ok(true)
}

// Whether a PDF is written, in which each sheet has a page.
fn has_pages(kind: Kind, options: &ArgMatches<'_>) -> bool
    ensures { result ≡ has_pages kind (rows_of (found_of options.now)) }
{
    match written(kind, options) {
        Some(Output::Vector(VectorFormat::Pdf)) => true,
        Some(_) | None => false,
    }
}

fn asks_each(options: &ArgMatches<'_>) -> bool
    ensures { result ≡ asks_each (rows_of (found_of options.now)) }
{
    match options.get_str("sheet") {
        Some(text) => is_each(text),
        None => false,
    }
}

fn is_report(kind: Kind) -> bool
    ensures { result ≡ is_report kind }
{
    match kind {
        Kind::Write(Output::Report) => true,
        Kind::Draw(_) | Kind::Write(_) => false,
    }
}

// The sheet that a text asks for, or 0 for all sheets, each of which may be asked for by itself.
fn sheet_named(text: &str) -> Option<u32>
    ensures { result ≡ sheet_named text.now }
{
    if is_each(text) {
        return Some(0);
    }
    sheet_number(text)
}

// Whether each sheet is asked for by itself.
fn is_each(text: &str) -> bool
    ensures { result ≡ is_each text.now }
{
    text == "each"
}

// The number of a sheet in decimal, or 0 for all sheets.
fn sheet_number(text: &str) -> Option<u32>
    ensures { result ≡ sheet_number text.now }
{
    let Ok(sheet) = text.parse::<i64>() else {
        return None;
    };
    if sheet < 0 || sheet > GREATEST_SHEET {
        return None;
    }
    Some(sheet as u32)
}
