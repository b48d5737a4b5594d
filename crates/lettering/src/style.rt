//! How letters are written.
ghost use Rattle.std.specs.Prelude.{◌≡◌, IsTrue};

use directions::Direction;
use stick_font::CharacterSize;

/// Where the next letter of a label is, if the label's direction is to the right (HP-GL/2: the first
/// number of DV, 0 to 3).
#[derive(Clone, Copy, Debug)]
pub enum Path {
    Right,
    Down,
    Left,
    Up,
}

/// On which side of the path the next line is (HP-GL/2: the second number of DV): on the right, or for a
/// reverse line feed on the left.
#[derive(Clone, Copy, Debug)]
pub enum LineFeed {
    Normal,
    Reverse,
}

/// How the letters of a label are written.
#[derive(Clone, Copy, Debug)]
pub struct Style {
    /// The width of a capital in grains of 1/16 plotter unit, within 2^40 of 0. Below 0 the label is
    /// mirrored (HP-GL/2: SI and SR).
    pub width: i64,
    /// The height of a capital in grains, within 2^40 of 0. Below 0 the label is upside down.
    pub height: i64,
    /// Where the label's x axis points (HP-GL/2: DI and DR).
    pub direction: Direction,
    /// The tangent of the letters' slant in millionths, within 1000.2 of 0 (HP-GL/2: SL, and the posture of the font).
    pub slant: i64,
    /// The step to the next letter along x, in millionths of one and a half widths, within 101 of 0: 1
    /// more than the first number of ES.
    pub step_x: i64,
    /// The step to the next line along y, in millionths of two heights, within 101 of 0: 1 more than the
    /// second number of ES.
    pub step_y: i64,
    pub path: Path,
    pub line_feed: LineFeed,
    /// LO's number, 1 to 9 or 11 to 19, which counts only for the path to the right.
    pub origin: u8,
}

impl Style {
    ghost use Rattle.lettering.specs.Styles.{usual};

    /// The style at the start: letters of 0.19 by 0.27 centimetres, upright, to the right, from the label's
    /// start on.
    pub fn usual() -> Style
        ensures { result ≡ usual }
    {
        Style {
            width: 1216,
            height: 1728,
            direction: Direction::RIGHT,
            slant: 0,
            step_x: 1_000_000,
            step_y: 1_000_000,
            path: Path::Right,
            line_feed: LineFeed::Normal,
            origin: 1,
        }
    }

    /// Whether this is the usual style, but for its size and its direction.
    pub fn is_usual(&self, size: CharacterSize, direction: Direction) -> bool
        ensures { IsTrue result
            → self.now ≡ record usual { width = size.width; height = size.height; direction = direction } }
    {
        if !is_to_the_right(self) || self.origin != 1 {
            return false;
        }
        if self.slant != 0 || self.step_x != ONE || self.step_y != ONE {
            return false;
        }
        if self.width != i64::from(size.width) || self.height != i64::from(size.height) {
            return false;
        }
        is_same(self.direction, direction)
    }
}

// One, in millionths.
const ONE: i64 = 1_000_000;

fn is_same(a: Direction, b: Direction) -> bool
    ensures { IsTrue result → a ≡ b }
{
    if a.x() != b.x() {
        return false;
    }
    a.y() == b.y()
}

// Whether letters follow each other to the right, and lines downward.
fn is_to_the_right(style: &Style) -> bool
    ensures path { IsTrue result → style.now.path ≡ Path.Right }
    ensures line_feed { IsTrue result → style.now.line_feed ≡ LineFeed.Normal }
{
    match (style.path, style.line_feed) {
        (Path::Right, LineFeed::Normal) => true,
        _ => false,
    }
}
