//! How the page is turned.
ghost use Rattle.std.specs.Prelude.{◌≡◌, ◌≢◌, Err, IfOk, Some};
ghost use Rattle.std.specs.Result.{result_err};
ghost use Rattle.clap.specs.Words.{found_of, rows_of};
ghost use Rattle.command_line.specs.Lines.{turn_fault, turn_in};
ghost use Rattle.command_line.specs.Turns.{turn_named};

use crate::fault::LineFault;
use clap::ArgMatches;
use directions::Turn;

/// The turn that is asked for, or none if none is given.
pub(crate) fn turn_of<'a>(options: &ArgMatches<'a>) -> Result<Turn, LineFault<'a>>
    ensures turn { IfOk result (λ turn. turn_in (rows_of (found_of options.now)) ≡ Some turn) }
    ensures pens { result ≢ Err LineFault.Pens }
    ensures refused { result_err result ≡ turn_fault (rows_of (found_of options.now)) }
{
    turn_in(options).ok_or(LineFault::BadTurn)
}

// The same; `None` if the text that is given asks for nothing.
fn turn_in(options: &ArgMatches<'_>) -> Option<Turn>
    ensures { result ≡ turn_in (rows_of (found_of options.now)) }
{
    match options.get_str("rotate") {
        Some(text) => turn_named(text),
        None => Some(Turn::None),
    }
}

// The turn by so many degrees, if they are a text for one.
fn turn_named(text: &str) -> Option<Turn>
    ensures { result ≡ turn_named text.now }
{
    if text == "0" {
        return Some(Turn::None);
    }
    if text == "90" {
        return Some(Turn::Quarter);
    }
    if text == "180" {
        return Some(Turn::Half);
    }
    if text == "270" {
        return Some(Turn::ThreeQuarters);
    }
    None
}
