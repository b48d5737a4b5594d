//! What `--characters` names.
ghost use Rattle.std.specs.Prelude.{◌≡◌, map};
ghost use Rattle.clap.specs.Words.{found_of, rows_of};
ghost use Rattle.command_line.specs.Characters.{encoding_in, encoding_named};
ghost use Rattle.command_line.specs.Lines.{encoding_of};

use character_sets::{CharacterSet, Encoding};
use clap::ArgMatches;

// The names, and what each means.
const ENCODINGS: [(&str, Encoding); 6] = [
    ("roman-8", Encoding::Always(CharacterSet::Roman8)),
    ("latin-1", Encoding::Always(CharacterSet::Latin1)),
    ("windows-1252", Encoding::Always(CharacterSet::Windows1252)),
    ("pc-8", Encoding::Always(CharacterSet::Pc8)),
    ("ascii", Encoding::Always(CharacterSet::Ascii)),
    ("utf-8", Encoding::Utf8),
];

/// How the bytes of labels are read: as the plot chooses if no name is given; `None` if the name means nothing.
pub(crate) fn encoding_of(options: &ArgMatches<'_>) -> Option<Encoding>
    ensures { result ≡ encoding_of (rows_of (found_of options.now)) }
{
    match options.get_str("characters") {
        Some(name) => encoding_named(name),
        None => Some(Encoding::ByPlot),
    }
}

// What this name means.
fn encoding_named(name: &str) -> Option<Encoding>
    ensures { result ≡ encoding_named name.now }
{
    encoding_in(&ENCODINGS, name)
}

// What the first row of this name has.
fn encoding_in(rows: &[(&str, Encoding)], name: &str) -> Option<Encoding>
    ensures { result ≡ encoding_in (map (λ row. (row.0.now, row.1)) rows.now) name.now }
{
    for &(known, encoding) in rows {
        if known == name {
            return Some(encoding);
        }
    }
    None
}
