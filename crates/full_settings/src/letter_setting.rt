//! What SI, SR, SL, DI, DR, ES, LO and DV ask for.
use lettering::{LineFeed, Path};
use plot_frame::Pair;

/// What the instructions that set letters ask for.
#[derive(Clone, Copy, Debug)]
pub enum LetterSetting {
    /// SI (Absolute Character Size) without numbers: the size is that of the font.
    FontSize,
    /// SI with numbers: the size is that of SI.
    AbsoluteSize,
    /// SR (Relative Character Size): the width and the height, in millionths of a percent of the distances
    /// from P1 to P2 in x and in y; within 1000 percent of 0.
    RelativeSize(Pair<i64>),
    /// DI (Absolute Direction): the run and the rise, in millionths; within 2^55 of 0, and not both 0.
    Direction(Pair<i64>),
    /// DR (Relative Direction): the run and the rise, in millionths of a percent of the distances from P1
    /// to P2 in x and in y; within 2^55 of 0, and not both 0.
    RelativeDirection(Pair<i64>),
    /// SL (Character Slant): the tangent of the slant in millionths; within 1000 of 0.
    Slant(i64),
    /// ES (Extra Space): the steps to the next letter and to the next line, in millionths of a cell's width
    /// and height: 1 more than the numbers of ES, and so within 101 of 0.
    Step(Pair<i64>),
    /// LO (Label Origin): the position, 1 to 9 or 11 to 19.
    Origin(u8),
    /// DV (Define Variable Text Path): the path, and the side on which the next line is.
    Path(Path, LineFeed),
}
