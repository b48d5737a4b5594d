//! How a plot is read and drawn.

use carousel::Carousel;
use picture_job::{PageChoice, Reading};
use turning::Turn;

/// How a plot is read and drawn: in which profile, with which pens, on which page, and how that is turned; and what is counted of it.
#[derive(Clone, Copy)]
pub struct Setup<'a> {
    /// In which profile the plot is read, and of the profile full which sheet.
    pub reading: Reading,
    /// The widths and the colours of pens.
    pub carousel: &'a Carousel,
    /// Which page the plot is drawn on.
    pub choice: PageChoice,
    /// How the page is turned counterclockwise, with all that is on it, after the plot is drawn and the page fitted. A report
    /// is on the page as it lies before.
    pub turn: Turn,
    /// Whether it is counted how many lines lie off the page and how many reach over its edge, which takes a walk over all shapes.
    pub counts: bool,
}
