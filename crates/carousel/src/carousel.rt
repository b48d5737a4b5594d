//! The pens of a carousel.
ghost use Rattle.std.specs.Prelude.{◌≤◌};
ghost use Rattle.std.specs.List.{All};
ghost use Rattle.std.specs.Option.{ForSome};
ghost use Rattle.plot_page.specs.declared.stroke.TheConstants.{GREATEST_WIDTH};

use plot_page::{Colour, GREATEST_WIDTH};

/// The width in grains of 1/16 plotter unit, 0 to 12,800, and the colour of each pen of the numbers 0 to
/// 255, where the user says them. They hold whatever the plot sets.
#[derive(Clone, Copy)]
pub struct Carousel {
    widths: [Option<u32>; 256],
    colours: [Option<Colour>; 256],
    ghost widths_in: { All (λ width. ForSome width (λ grains. grains ≤ GREATEST_WIDTH)) widths },
}

impl Carousel {
    ghost use Rattle.std.specs.Prelude.{◌≡◌, ◌<◌, ℕ, ◌==◌, if◌then◌else◌, Some, IfSome};
    ghost use Rattle.carousel.specs.Carousels.{empty, width_of, colour_of};

    /// No pen with a width or a colour: all is as the plot sets it.
    pub fn empty() -> Carousel
        ensures { result ≡ empty }
    {
        Carousel {
            widths: [None; 256],
            colours: [None; 256],
        }
    }

    /// The same with this width of a pen, in grains.
    pub fn with_width(self, pen: u8, width: u32) -> Carousel
        requires { width ≤ GREATEST_WIDTH }
        ensures width { (other : ℕ) → other < 256 → width_of result other
            ≡ (if other == pen then Some width else width_of self other) }
        ensures colours { (other : ℕ) → other < 256 → colour_of result other ≡ colour_of self other }
    {
        let mut pens = self;
        pens.widths[pen as usize] = Some(width);
        pens
    }

    /// The same with this colour of a pen.
    pub fn with_colour(self, pen: u8, colour: Colour) -> Carousel
        ensures colour { (other : ℕ) → other < 256 → colour_of result other
            ≡ (if other == pen then Some colour else colour_of self other) }
        ensures widths { (other : ℕ) → other < 256 → width_of result other ≡ width_of self other }
    {
        let mut pens = self;
        pens.colours[pen as usize] = Some(colour);
        pens
    }

    /// The width of a pen in grains, if the user says it.
    #[inline]
    pub fn width_of(&self, pen: u8) -> Option<u32>
        ensures value { result ≡ width_of self.now pen }
        ensures range { IfSome result (λ width. width ≤ GREATEST_WIDTH) }
    {
        self.widths[pen as usize]
    }

    /// The colour of a pen, if the user says it.
    #[inline]
    pub fn colour_of(&self, pen: u8) -> Option<Colour>
        ensures { result ≡ colour_of self.now pen }
    {
        self.colours[pen as usize]
    }
}
