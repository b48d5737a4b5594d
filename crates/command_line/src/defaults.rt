//! What each subcommand does unless its options say otherwise, beside the defaults of its options.
ghost use Rattle.std.specs.Prelude.{◌≡◌};
ghost use Rattle.command_line.specs.Defaults.{defaults_of};

use crate::subcommands::Kind;

/// What a subcommand does unless its options say otherwise.
#[derive(Clone, Copy)]
pub(crate) struct Defaults {
    /// Dots per inch.
    pub(crate) dots: u32,
    /// How much finer a picture that may be smoothed is painted, at most.
    pub(crate) smoothing: u32,
    /// What is left free around the drawing on a fitted page, in millimetres.
    pub(crate) margin: u32,
    /// Whether the page that the plot asks for is fitted to the drawing, if no page is given.
    pub(crate) fits: bool,
    /// Whether a person waits for the picture: progress is shown, and it is said if little or nothing is drawn.
    pub(crate) interactive: bool,
}

const OF_DRAW: Defaults = Defaults {
    dots: 150,
    smoothing: 4,
    margin: 5,
    fits: true,
    interactive: true,
};

const OF_OTHERS: Defaults = Defaults {
    dots: 100,
    smoothing: 1,
    margin: 1,
    fits: false,
    interactive: false,
};

/// The defaults of a subcommand.
pub(crate) fn defaults_of(kind: Kind) -> Defaults
    ensures dots { result.dots ≡ (defaults_of kind).dots }
    ensures smoothing { result.smoothing ≡ (defaults_of kind).smoothing }
    ensures margin { result.margin ≡ (defaults_of kind).margin }
    ensures fits { result.fits ≡ (defaults_of kind).fits }
    ensures interactive { result.interactive ≡ (defaults_of kind).interactive }
{
    match kind {
        Kind::Draw(_) => OF_DRAW,
        Kind::Write(_) => OF_OTHERS,
    }
}
