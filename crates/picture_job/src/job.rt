//! A request for a picture.
use picture_out::Form;
use plot_page::{Dots, Page, PenSet};

/// A request for a picture: page, resolution, pens, band height, first row and form.
#[derive(Clone, Copy)]
pub struct Job {
    /// The page, in plotter units of 0.025 mm.
    pub page: Page,
    /// The resolution, in dots per inch.
    pub dots: Dots,
    /// The pens whose strokes are drawn.
    pub pens: PenSet,
    /// How many rows of pixels are painted at a time, 1 to 4,096.
    pub band: u32,
    /// The first row that is written, counted from 0 at the top: at most the count of rows.
    pub first_row: u32,
    /// The form of the output.
    pub form: Form,
}
