//! Where the output goes.
ghost use Rattle.std.specs.Prelude.{◌≡◌, option_map};
ghost use Rattle.command_line.specs.Lines.{output_in};

use clap::ArgMatches;

/// What the output of a run is written into.
#[derive(Clone, Copy, Debug, PartialEq, Eq)]
pub enum Destination {
    /// A file, which may not exist yet, or standard output.
    File,
    /// A folder that exists.
    Folder,
}

/// The name of the file or of the folder that the matches of `command`'s command say the output goes into; `None` if they
/// name none.
pub fn output_of<'m, 'a>(matches: &'m ArgMatches<'a>) -> Option<&'a str>
    ensures { option_map (λ s. s.now) result ≡ output_in matches.now }
{
    let (_, options) = matches.subcommand()?;
    options.get_str("output")
}
