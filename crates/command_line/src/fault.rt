//! What may be wrong with a command line.
ghost use Rattle.std.specs.Prelude.{◌≡◌};
ghost use Rattle.clap.specs.Words.{kind_of};
ghost use Rattle.command_line.specs.Statuses.{parse_status_of};

use clap::error::ErrorKind;
use thiserror::Error;

/// Why the command could not be made.
#[derive(Clone, Copy, Debug, PartialEq, Eq, Drop, Error)]
pub enum BuildFault {
    /// The heap gave no memory.
    #[error("out of memory")]
    Memory,
}

/// Why matches ask for nothing that this program does.
#[derive(Clone, Copy, Debug, PartialEq, Eq, Drop, Error)]
pub enum LineFault<'a> {
    /// They are the matches of another command, or words that are no text.
    #[error("words not understood")]
    Words,
    /// The form that draw is asked for, by `--form` or by the extension of the output file, is none.
    #[error("no such form of picture: use png, pdf, svg, dxf, ppm, pbm, pcl or marks, after --form or as the extension of the output file")]
    Form,
    /// The text after `--pens` is no list of pens.
    #[error("bad pen list")]
    Pens,
    /// The first item of the text after `--colours` that is bad.
    #[error("bad colours: {0}")]
    Colours(&'a str),
    /// The first item of the text after `--widths` that is bad.
    #[error("bad widths: {0}")]
    Widths(&'a str),
    /// The word after `--labels` names no way to write them.
    #[error("bad labels: use text or strokes")]
    BadLabels,
    /// `--labels` is given for a form without texts in place of strokes.
    #[error("--labels needs the form dxf")]
    NoTexts,
    /// `--labels` is given with the profile core, which draws labels as strokes only.
    #[error("--labels needs --profile full")]
    Labels,
    /// `--smooth` is given for a form without shades.
    #[error("--smooth needs the form png or ppm")]
    Shades,
    /// `--dots`, `--size` or `--smooth` is given for a vector document, which has no pixels.
    #[error("--dots, --size and --smooth may not be given with the forms pdf, svg and dxf")]
    NoPixels,
    /// The resolution times the smoothing is over 1200 dots per inch.
    #[error("--dots times --smooth is over 1200")]
    Smooth,
    /// The word after `--page` names no paper, and is not `plot`.
    #[error("bad page: use a0 to a5, b4, letter, legal, tabloid, ansi-a to ansi-e, arch-d or arch-e, one of these with -portrait, or plot")]
    Paper,
    /// `--page` is given with `--width` or `--height`.
    #[error("--page may not be given with --width or --height")]
    Size,
    /// The word after `--profile` names no profile.
    #[error("bad profile")]
    Profile,
    /// The text after `--sheet` is no number of a sheet, and is not `each`.
    #[error("bad sheet: use a number from 0 to 4194304, or each")]
    BadSheet,
    /// The word after `--characters` names no characters.
    #[error("bad characters: use roman-8, latin-1, windows-1252, pc-8, ascii or utf-8")]
    BadCharacters,
    /// `--sheet` is given with the profile core, which has no sheets.
    #[error("--sheet needs --profile full")]
    Sheet,
    /// `--characters` is given with the profile core, which reads labels as ASCII.
    #[error("--characters needs --profile full")]
    Characters,
    /// A width or a height is given that only a page of the profile full has.
    #[error("--width and --height over 65536 need --profile full")]
    LongPage,
    /// A report on each sheet is asked for.
    #[error("--sheet each needs a picture")]
    NoPicture,
    /// Each sheet is asked for by itself, without `--output`, and not in a PDF.
    #[error("--sheet each needs --output FOLDER")]
    NoFolder,
    /// `--size` is given with `--dots`.
    #[error("--size may not be given with --dots")]
    Pixels,
    /// `--size` is given for a picture in PCL, whose printers know only some resolutions.
    #[error("--size may not be given with the form pcl")]
    PrinterPixels,
    /// `--margin` is given, and the page is not fitted.
    #[error("--margin needs --fit")]
    Margin,
    /// The word after `--rotate` is no turn.
    #[error("bad rotation: use 0, 90, 180 or 270")]
    BadTurn,
    /// Several plots are given without `--output`.
    #[error("several plots need --output FOLDER")]
    Several,
}

/// The exit status if words gave no matches: 0 if help or the version was asked for, 4 if memory
/// ran out, and 2 for any other fault, which is one of usage.
pub fn parse_status(error: &clap::Error) -> u8
    ensures { result ≡ parse_status_of (kind_of error.now) }
{
    match error.kind() {
        ErrorKind::DisplayHelp | ErrorKind::DisplayVersion => 0,
        ErrorKind::OutOfMemory => 4,
        _ => 2,
    }
}
