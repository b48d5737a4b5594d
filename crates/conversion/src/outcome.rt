//! What a run on a chosen page has done.
use crate::done::Done;
use crate::placement::Placement;
use page_fit::Census;

/// What a run on a chosen page has done.
#[derive(Clone, Copy, Debug, PartialEq, Eq)]
pub struct Outcome {
    /// What was written.
    pub done: Done,
    /// Which page the picture shows, and why.
    pub placement: Placement,
    /// How many sheets of the plot have strokes or images in the profile full; in core this is not counted, and 0.
    pub sheets: usize,
    /// Whether all images, and all that the selected pens draw, or in a report all pens, lie off the page, or nothing is drawn.
    pub is_off_page: bool,
    /// If it is counted: how many strokes and edges of areas these pens draw, and how many of these lie off the page.
    pub census: Option<Census>,
}
