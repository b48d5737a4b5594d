//! The values of options.
ghost use Rattle.std.specs.Prelude.{◌≡◌, ◌<◌, ◌≤◌, ◌^◌, ℕ, IfErr, IfOk, IfSome, IsOkAnd, Some};
ghost use Rattle.clap.specs.Words.{found_of, rows_of};
ghost use Rattle.command_line.specs.Lines.{has_flag, is_given, number_in};
ghost use Rattle.command_line.specs.Readings.{HasNumber, MayHaveNumber};

use crate::fault::LineFault;
use clap::ArgMatches;

/// Whether an option is given, or has a default.
pub(crate) fn is_given(options: &ArgMatches<'_>, name: &str) -> bool
    ensures { result ≡ is_given (rows_of (found_of options.now)) name.now }
{
    options.get_str(name).is_some()
}

/// Whether a flag is given.
pub(crate) fn has_flag(options: &ArgMatches<'_>, name: &str) -> bool
    ensures { result ≡ has_flag (rows_of (found_of options.now)) name.now }
{
    match options.get_str(name) {
        Some(text) => text == "true",
        None => false,
    }
}

/// The number of an option, or `None` if it is not given.
pub(crate) fn number_if_given<'a>(
    options: &ArgMatches<'a>,
    name: &str,
) -> Result<Option<u32>, LineFault<'a>>
    ensures number { IfOk result (λ number. number_in (rows_of (found_of options.now)) name.now ≡ number) }
    ensures understood { (low high : ℕ) → high < 2 ^ 32 → MayHaveNumber (rows_of (found_of options.now)) name.now low high →
        IsOkAnd result (λ number. IfSome number (λ n. (low ≤ n) × (n ≤ high))) }
    ensures fault { IfErr result (λ fault. fault ≡ LineFault.Words) }
{
    if options.get_str(name).is_none() {
        return Ok(None);
    }
    Ok(Some(number_of(options, name)?))
}

/// The number of an option.
pub(crate) fn number_of<'a>(options: &ArgMatches<'a>, name: &str) -> Result<u32, LineFault<'a>>
    ensures number { IfOk result (λ n. number_in (rows_of (found_of options.now)) name.now ≡ Some n) }
    ensures understood { (low high : ℕ) → high < 2 ^ 32 → HasNumber (rows_of (found_of options.now)) name.now low high →
        IsOkAnd result (λ n. (low ≤ n) × (n ≤ high)) }
    ensures fault { IfErr result (λ fault. fault ≡ LineFault.Words) }
{
    options.get_one::<u32>(name).ok_or(LineFault::Words)
}
