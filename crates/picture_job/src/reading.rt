//! How a plot is read.
use character_sets::Encoding;

/// How a plot is read: in the profile core, or in the profile full.
#[derive(Clone, Copy, Debug, PartialEq, Eq)]
pub enum Reading {
    /// In the profile core.
    Core,
    /// In the profile full, of which the strokes of one sheet are drawn, or those of all sheets.
    Full {
        /// The sheet, counted from 1, or 0 for all sheets.
        sheet: u32,
        /// How the bytes of labels are read: by the sets of characters that the plot chooses, or in one way whatever it
        /// chooses.
        encoding: Encoding,
    },
}
