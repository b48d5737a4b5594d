//! How a document is to have the labels of the plot.
ghost use Rattle.std.specs.Prelude.{◌≡◌, ◌≢◌, Err, IfOk, None, Some};
ghost use Rattle.std.specs.Result.{result_err};
ghost use Rattle.clap.specs.Words.{found_of, rows_of};
ghost use Rattle.command_line.specs.LabelChoices.{labels_named};
ghost use Rattle.command_line.specs.Lines.{has_profile, labels_fault, labels_in, writes_texts};

use crate::fault::LineFault;
use crate::groups::has_texts;
use crate::line::written;
use crate::subcommands::Kind;
use crate::values::is_given;
use clap::ArgMatches;
use picture_job::LabelChoice;

/// How labels are written: as texts if nothing is said. It may be said only of a DXF, and with the profile full.
pub(crate) fn labels_of<'a>(
    kind: Kind,
    options: &ArgMatches<'a>,
) -> Result<LabelChoice, LineFault<'a>>
    ensures labels { IfOk result (λ labels. labels_in (rows_of (found_of options.now)) ≡ Some labels) }
    ensures labelled { IfOk result (λ _. labels_fault kind (rows_of (found_of options.now)) ≡ None) }
    ensures pens { result ≢ Err LineFault.Pens }
    ensures refused { result_err result ≡ labels_fault kind (rows_of (found_of options.now)) }
{
    let labels = labels_in(options).ok_or(LineFault::BadLabels)?;
    if !is_given(options, "labels") {
        return Ok(labels);
    }
    if !writes_texts(kind, options) {
        return Err(LineFault::NoTexts);
    }
    if has_profile(options, "core") {
        return Err(LineFault::Labels);
    }
    Ok(labels)
}

// As the name says, or as texts if none is given; `None` if the name means nothing.
fn labels_in(options: &ArgMatches<'_>) -> Option<LabelChoice>
    ensures { result ≡ labels_in (rows_of (found_of options.now)) }
{
    match options.get_str("labels") {
        Some(name) => labels_named(name),
        None => Some(LabelChoice::Text),
    }
}

// What this name means.
fn labels_named(name: &str) -> Option<LabelChoice>
    ensures { result ≡ labels_named name.now }
{
    if name == "text" {
        return Some(LabelChoice::Text);
    }
    if name == "strokes" {
        return Some(LabelChoice::Strokes);
    }
    None
}

// Whether a picture is written in which labels may be texts.
fn writes_texts(kind: Kind, options: &ArgMatches<'_>) -> bool
    ensures { result ≡ writes_texts kind (rows_of (found_of options.now)) }
{
    match written(kind, options) {
        Some(output) => has_texts(output),
        None => false,
    }
}

// Whether the profile has this name.
fn has_profile(options: &ArgMatches<'_>, name: &str) -> bool
    ensures { result ≡ has_profile (rows_of (found_of options.now)) name.now }
{
    match options.get_str("profile") {
        Some(text) => text == name,
        None => false,
    }
}
