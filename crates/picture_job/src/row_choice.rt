//! Which rows of a picture are written, and how finely they are painted.
ghost use Rattle.std.specs.Prelude.{◌≡◌, None};

use crate::smoothing::Smoothing;

/// How many rows of a picture in a form are written, and how much finer they are painted.
#[derive(Clone, Copy, Debug)]
pub struct RowChoice {
    /// How much finer the picture is painted than it is written; it is smoothed if its form has colours.
    pub smoothing: Smoothing,
    /// How many rows are written at most, from the job's first row on; all that are left if this is none.
    pub most_rows: Option<u32>,
}

impl RowChoice {
    /// All rows that are left, smoothed so.
    pub fn all(smoothing: Smoothing) -> RowChoice
        ensures smoothing { result.smoothing ≡ smoothing }
        ensures rows { result.most_rows ≡ None }
    {
        RowChoice {
            smoothing,
            most_rows: None,
        }
    }
}
