//! A request for a PNG picture.
use crate::smoothing::Smoothing;
use plot_page::{Dots, Page, PenSet};

/// A request for a PNG picture: page, resolution, pens and smoothing. It is written whole, so it has no first row.
#[derive(Clone, Copy)]
pub struct PngJob {
    /// The page, in plotter units of 0.025 mm.
    pub page: Page,
    /// The resolution, in dots per inch.
    pub dots: Dots,
    /// The pens whose strokes are drawn.
    pub pens: PenSet,
    /// How much finer the picture is painted than it is written.
    pub smoothing: Smoothing,
}
