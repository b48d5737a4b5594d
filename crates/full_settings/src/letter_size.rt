//! Where the size of letters comes from.
use plot_frame::Pair;

/// Where the size of letters comes from.
#[derive(Clone, Copy, Debug)]
pub enum LetterSize {
    /// From the font of the set that is selected: at the start, and after SI without numbers.
    ByFont,
    /// From SI (Absolute Character Size).
    Absolute,
    /// From SR (Relative Character Size): the width and the height, in millionths of a percent of the
    /// distances from P1 to P2 in x and in y.
    Relative(Pair<i64>),
}
