//! Which page a picture shows, and why.

/// Which page a picture shows, and why: the page that its plot is drawn on, or the page around the drawing.
#[derive(Clone, Copy, Debug, PartialEq, Eq)]
pub enum Placement {
    /// The page that was given, as was asked.
    Given,
    /// The page that the plot asks for.
    Asked,
    /// The page that was given: the plot asks for none.
    Unasked,
    /// The page around the drawing.
    Fitted,
    /// The page that the plot is drawn on: the selected pens draw nothing that is seen.
    Blank,
    /// The page that the plot is drawn on: no page is large enough for the drawing.
    TooLarge,
}
