//! The colours and the widths of pens until others are set.
ghost use Rattle.std.specs.Prelude.{◌≡◌};
ghost use Rattle.plot_settings.specs.Colours as colours;
ghost use Rattle.plot_settings.specs.Settings.{all_pens};

use plot_page::Colour;

const WHITE: Colour = Colour {
    red: 255,
    green: 255,
    blue: 255,
};

const BLACK: Colour = Colour {
    red: 0,
    green: 0,
    blue: 0,
};

const RED: Colour = Colour {
    red: 255,
    green: 0,
    blue: 0,
};

const GREEN: Colour = Colour {
    red: 0,
    green: 255,
    blue: 0,
};

const YELLOW: Colour = Colour {
    red: 255,
    green: 255,
    blue: 0,
};

const BLUE: Colour = Colour {
    red: 0,
    green: 0,
    blue: 255,
};

const MAGENTA: Colour = Colour {
    red: 255,
    green: 0,
    blue: 255,
};

const CYAN: Colour = Colour {
    red: 0,
    green: 255,
    blue: 255,
};

/// The width of a pen until another is set, in grains of 1/16 plotter unit: 0.35 mm.
pub const FIRST_WIDTH: u32 = 224;

// The default colours of pens 0 to 7.
const FIRST_COLOURS: [Colour; 8] = [WHITE, BLACK, RED, GREEN, YELLOW, BLUE, MAGENTA, CYAN];

/// The colour of a pen until another is set: white, black, red, green, yellow, blue, magenta and
/// cyan for pens 0 to 7, as in the guide's palette of eight pens, and black for all others.
pub fn default_colour(pen: u8) -> Colour
    ensures { result ≡ colours.default_colour pen }
{
    match FIRST_COLOURS.get(usize::from(pen)) {
        Some(colour) => *colour,
        None => BLACK,
    }
}

/// The colours of all pens until others are set.
pub fn default_colours() -> [Colour; 256]
    ensures { result ≡ colours.default_colours }
{
    let mut colours = [BLACK; 256];
    colours[..8].copy_from_slice(&FIRST_COLOURS);
    colours
}

/// One width, in grains of 1/16 plotter unit, for all pens.
pub fn width_of_all(width: u32) -> [u32; 256]
    ensures { result ≡ all_pens width }
{
    [width; 256]
}
