//! Which page a plot is drawn on, which page its picture shows, and in how many pixels.
ghost use Rattle.std.specs.Prelude.{◌≡◌};
ghost use Rattle.picture_job.specs.Sizes.{dots_in, smoothing_in};

use crate::smoothing::Smoothing;
use plot_page::{Dots, Page};

/// The most pixels that the longer side of a picture can be chosen to have.
pub const MOST_PIXELS_CHOSEN: u32 = 20_000;

/// Which page a plot is drawn on, which page its picture shows, and in how many pixels.
#[derive(Clone, Copy, Debug, PartialEq, Eq)]
pub struct PageChoice {
    /// Whether the plot is drawn on the page of the size that it asks for, with the corner of the page that is given,
    /// if it asks for one. Else it is drawn on the page that is given.
    pub asked: bool,
    /// How much is left free around the drawing, in millimetres, if the picture shows the page around what the selected
    /// pens draw. Else it shows the page that the plot is drawn on.
    pub margin: Option<u32>,
    /// How many pixels the longer side of the picture has at most, up to 20,000, if its resolution is chosen by them. Else
    /// it has the resolution that the job gives.
    pub pixels: Option<u32>,
}

impl PageChoice {
    /// The page that is given, at the resolution that is given.
    pub const GIVEN: PageChoice = PageChoice {
        asked: false,
        margin: None,
        pixels: None,
    };

    /// The resolution of the picture of a page: the one that is given, or if pixels are chosen, the greatest one of 1 to
    /// 1200 dots per inch at which its longer side has at most so many, or else 1.
    pub fn dots(self, page: &Page, given: Dots) -> Dots
        ensures { result ≡ dots_in self.pixels page.now given }
    {
        match self.pixels {
            None => given,
            Some(pixels) => Dots::within(page, pixels.min(MOST_PIXELS_CHOSEN)),
        }
    }

    /// How much finer a picture of this resolution is painted: as given, or if pixels are chosen, no more than 1200 dots per
    /// inch allow.
    pub fn smoothing(self, dots: Dots, given: Smoothing) -> Smoothing
        ensures { result ≡ smoothing_in self.pixels dots given }
    {
        match self.pixels {
            None => given,
            Some(_) => given.at(dots),
        }
    }
}
